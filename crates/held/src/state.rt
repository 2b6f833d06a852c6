ghost use Rattle.std.specs.Prelude.{◌≡◌, ◌&&◌, ◌++◌, ◌*◌, ◌-◌, ◌%◌, ◌≤◌, eqb, ltb, take, replicate};
ghost use Rattle.refusal.specs.Kinds.{number_of};
ghost use Rattle.records.specs.Forms.{plain_forms, cell_bytes, most_cells};
ghost use Rattle.held.specs.Held.{plain, part_bytes, reader_of, record_bytes, state_of};

use records::limits::{CELL_BYTES, HEADER_BYTES, MOST_CELLS};
use refusal::kinds::Refusal;

// The state between two calls: the refusal so far, what the header said, how many cells were taken in, and the bytes of the
// record that comes next. The C interface: 40 bytes in which any number may stand, so the number of a refusal, the sides and
// how many bytes are held are fields, and what is settled stands in clauses.
#[repr(C)]
#[derive(Clone, Copy, Debug, PartialEq, Eq)]
pub struct Reader {
    pub code: u32,
    pub columns: u32,
    pub rows: u32,
    pub cells: u32,
    pub held: u32,
    pub part: [u8; 16],
    pub spare: u32,
}

// No byte of a record is held. The code is a number, as a state that C passes may hold any.
pub fn between(code: u32, columns: u32, rows: u32, cells: u32) -> Reader
    ensures { result ≡ reader_of (plain code columns rows cells) }
{
    Reader {
        code,
        columns,
        rows,
        cells,
        held: 0,
        part: [0; 16],
        spare: 0,
    }
}

// The first `count` bytes, and 0 behind them.
fn first_bytes(part: [u8; 16], count: usize) -> [u8; 16]
    requires { count ≤ part_bytes }
    ensures { result ≡ take count part ++ replicate (part_bytes - count) 0 }
{
    let mut first = [0; 16];
    first[..count].copy_from_slice(&part[..count]);
    first
}

// How many bytes the record has that comes next.
fn record_bytes(columns: u32) -> usize
    ensures { result ≡ record_bytes columns plain_forms }
{
    if columns == 0 {
        HEADER_BYTES
    } else {
        CELL_BYTES
    }
}

impl Reader {
    // A refusal keeps what the header said and how many cells were taken in.
    pub fn refused(self, refusal: Refusal) -> Reader
        ensures { result ≡ reader_of (plain (number_of refusal) self.columns self.rows self.cells) }
    {
        between(refusal.number(), self.columns, self.rows, self.cells)
    }

    // Whether a cell's record comes next, none of whose bytes has come.
    pub fn at_a_cell(self) -> bool
        ensures { result ≡ (eqb self.code 0 && (ltb 0 self.columns && eqb self.held 0)) }
    {
        self.code == 0 && 0 < self.columns && self.held == 0
    }

    // How many bytes complete the record begun; the header's counts as begun before its first.
    pub fn missing(self) -> usize
        requires { self.held ≤ record_bytes self.columns plain_forms }
        ensures { result ≡ (record_bytes self.columns plain_forms - self.held) % cell_bytes }
    {
        (record_bytes(self.columns) - self.held as usize) % CELL_BYTES
    }

    // What a reader stands for: nothing but what is in use counts.
    pub fn settled(self) -> Reader
        ensures { result ≡ reader_of (state_of self) }
    {
        if self.code != 0 {
            return between(self.code, self.columns, self.rows, self.cells);
        }
        if MOST_CELLS < self.columns || MOST_CELLS < self.rows {
            return self.refused(Refusal::Odd);
        }
        let held = (self.held as usize).min(record_bytes(self.columns) - 1);
        Reader {
            held: held as u32,
            part: first_bytes(self.part, held),
            spare: 0,
            ..self
        }
    }

    // How many cells the header said.
    pub fn count(self) -> usize
        requires { (self.columns ≤ most_cells) × (self.rows ≤ most_cells) }
        ensures { result ≡ self.columns * self.rows }
    {
        (self.columns as usize) * (self.rows as usize)
    }
}
