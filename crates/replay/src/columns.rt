ghost use Rattle.std.specs.Prelude.{◌≡◌, true};
ghost use Rattle.replay.specs.Call.{Drawable};

use crate::grids::{CELLS, LARGEST};
use crate::numbers::{component, natural};
use crate::sample::{Content, SEEDS};
use single::found::Found;

// What a call asks for: a candidate, a search or a refinement on a block, or a run.
#[derive(Clone, Copy, Debug, PartialEq, Eq)]
pub(crate) enum Kind {
    Candidate,
    Diamond,
    Hexagon,
    MultiHexagon,
    Refinement,
    Frame,
}

impl TryFrom<usize> for Kind {
    type Error = ();

    fn try_from(column: usize) -> Result<Kind, ()> {
        match column {
            0 => Ok(Kind::Candidate),
            1 => Ok(Kind::Diamond),
            2 => Ok(Kind::Hexagon),
            3 => Ok(Kind::MultiHexagon),
            4 => Ok(Kind::Refinement),
            5 => Ok(Kind::Frame),
            _ => Err(()),
        }
    }
}

// What the proved code is asked: a kind of call, a block, the content of the planes, and a vector, which a refinement
// finds stored. Of a frame the block is a cell, and `refined` is whether there is a previous grid.
#[derive(Clone, Copy, Debug, PartialEq, Eq)]
pub(crate) struct Call {
    pub(crate) kind: Kind,
    pub(crate) width: usize,
    pub(crate) height: usize,
    pub(crate) level: usize,
    pub(crate) refined: usize,
    pub(crate) bx: usize,
    pub(crate) by: usize,
    pub(crate) content: Content,
    pub(crate) seed: usize,
    pub(crate) row: i16,
    pub(crate) col: i16,
    pub(crate) weight: u32,
    ghost drawable: { Drawable width height bx by seed },
}

// What is found for a call.
#[derive(Clone, Copy, Debug, PartialEq, Eq)]
pub(crate) struct Answer {
    row: i16,
    col: i16,
    sad: usize,
    cost: usize,
}

impl From<Found> for Answer {
    fn from(found: Found) -> Answer {
        Answer {
            row: found.row,
            col: found.col,
            sad: found.sad as usize,
            cost: found.cost as usize,
        }
    }
}

// Whether the buffers hold the planes of such a call, and its cell.
fn drawable(width: usize, height: usize, bx: usize, by: usize, seed: usize) -> bool
    ensures { result ≡ true → Drawable width height bx by seed }
{
    width <= LARGEST && height <= LARGEST && bx < CELLS && by < CELLS && seed < SEEDS
}

// A call and what the published Rust found, from the columns of a line, those of a frame below where they are others:
//
//     kind width height level refined bx by content seed row col weight out_row out_col sad cost
//                       -     present                    -   -   -                          sum
//
// There is no case where the columns are more or fewer, or one is no such number; where there is no such kind or content, no
// plane has the seed or the weight is no word; or where a side or a cell is past the buffers.
pub(crate) fn case_of(line: &[u8]) -> Option<(Call, Answer)> {
    let mut columns = line.split(|b| *b == b' ');
    let kind = Kind::try_from(natural(columns.next()?)?).ok()?;
    let width = natural(columns.next()?)?;
    let height = natural(columns.next()?)?;
    let level = natural(columns.next()?)?;
    let refined = natural(columns.next()?)?;
    let bx = natural(columns.next()?)?;
    let by = natural(columns.next()?)?;
    let content = Content::try_from(natural(columns.next()?)?).ok()?;
    let seed = natural(columns.next()?)?;
    let row = component(columns.next()?)?;
    let col = component(columns.next()?)?;
    let weight = u32::try_from(natural(columns.next()?)?).ok()?;
    let answer = Answer {
        row: component(columns.next()?)?,
        col: component(columns.next()?)?,
        sad: natural(columns.next()?)?,
        cost: natural(columns.next()?)?,
    };
    if columns.next().is_some() || !drawable(width, height, bx, by, seed) {
        return None;
    }
    let call = Call {
        kind,
        width,
        height,
        level,
        refined,
        bx,
        by,
        content,
        seed,
        row,
        col,
        weight,
    };
    Some((call, answer))
}
