ghost use Rattle.std.specs.Prelude.{◌≡◌};
ghost use Rattle.refusal.specs.Kinds.{number_of, code_of};

use std::error::Error;
use std::fmt;

// Why a call is refused, each with its number.
#[derive(Clone, Copy, Debug, PartialEq, Eq)]
pub enum Refusal {
    Side = 1,
    Level = 2,
    Start = 3,
    Plane = 4,
    Grid = 5,
    List = 6,
    Order = 7,
    Window = 8,
    Vector = 9,
    Mark = 10,
    Length = 11,
    Odd = 12,
    Room = 13,
    Shapes = 14,
}

impl Refusal {
    pub fn number(self) -> u32
        ensures { result ≡ number_of self }
    {
        self as u32
    }
}

// What a refusal means.
impl fmt::Display for Refusal {
    fn fmt<W: fmt::Write>(&self, f: &mut fmt::Formatter<W>) -> fmt::Result {
        f.write_str(match self {
            Refusal::Side => "a side is no multiple of 8 from 8 to 1024",
            Refusal::Level => "there is no such level",
            Refusal::Start => "no block or superblock starts there",
            Refusal::Plane => "a plane is too short",
            Refusal::Grid => "a grid is too short",
            Refusal::List => "the list does not name each superblock once",
            Refusal::Order => "the list has superblocks that share an edge against raster order",
            Refusal::Window => "a refinement has nothing to search",
            Refusal::Vector => "the start vector is out of range",
            Refusal::Mark => "a record does not start with the mark 4C 47",
            Refusal::Length => "the file is too short or too long for what its header says",
            Refusal::Odd => "the header says an odd number of columns or rows",
            Refusal::Room => "there is no room for it",
            Refusal::Shapes => "their columns or rows are unequal",
        })
    }
}

impl Error for Refusal {}

// 0 where a call is done, or the number of its refusal.
pub fn code_of(answer: Result<(), Refusal>) -> u32
    ensures { result ≡ code_of answer }
{
    match answer {
        Ok(()) => 0,
        Err(refusal) => refusal.number(),
    }
}
