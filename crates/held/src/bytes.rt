ghost use Rattle.std.specs.Prelude.{◌≡◌, [], ◌∷◌, ◌++◌, ◌+◌, ◌≤◌, ◌<◌};
ghost use Rattle.gridfile.specs.Reading.{head_of, begun, header_end, marked, next};
ghost use Rattle.records.specs.Forms.{plain_forms, mark, most_cells};
ghost use Rattle.held.specs.Held.{record_bytes, reader_of, state_of, Settled};

use crate::state::{Reader, between};
use gridfile::read::end_refusal;
use records::limits::{CELL_LAST, HEADER_LAST, MARK};
use refusal::kinds::{Refusal, code_of};

// The header's last byte has come: 12 and 13, or the cells to come.
fn header_end(room: usize, columns: u32, rows: u32) -> Reader
    requires { (columns ≤ most_cells) × (rows ≤ most_cells) }
    ensures { result ≡ reader_of (header_end room (head_of columns rows)) }
{
    let end = end_refusal(room, columns as usize, rows as usize);
    between(code_of(end), columns, rows, 0)
}

// Whether a byte may stand at its place in a record.
fn mark_holds(place: u32, byte: u8) -> bool
    ensures { result ≡ marked mark place byte }
{
    let place = place as usize;
    MARK.len() <= place || byte == MARK[place]
}

impl Reader {
    // One byte more of the record that comes next.
    fn begin(self, byte: u8) -> Reader
        requires { Settled self × (self.code ≡ 0) × (self.held + 1 < record_bytes self.columns plain_forms) }
        ensures { result ≡ reader_of (begun (state_of self) ((state_of self).part ++ byte ∷ [])) }
    {
        let mut part = self.part;
        part[self.held as usize] = byte;
        Reader {
            held: self.held + 1,
            part,
            ..self
        }
    }

    fn header_byte(self, room: usize, byte: u8) -> Reader
        requires { Settled self × (self.code ≡ 0) × (self.columns ≡ 0) }
        ensures { result ≡ reader_of (next room (state_of self) byte) }
    {
        if !mark_holds(self.held, byte) {
            return self.refused(Refusal::Mark);
        }
        if self.held < HEADER_LAST {
            return self.begin(byte);
        }
        header_end(room, self.part[2] as u32 + 1, byte as u32 + 1)
    }

    fn cell_byte(self, byte: u8) -> Reader
        requires { Settled self × (self.code ≡ 0) × (0 < self.columns) }
        ensures { result ≡ reader_of (next 0 (state_of self) byte) }
    {
        if self.count() <= self.cells as usize {
            return self.refused(Refusal::Length);
        }
        if !mark_holds(self.held, byte) {
            return self.refused(Refusal::Mark);
        }
        if self.held < CELL_LAST {
            return self.begin(byte);
        }
        between(0, self.columns, self.rows, self.cells + 1)
    }

    // The next byte of a file that nothing was wrong with so far.
    pub fn next_byte(self, room: usize, byte: u8) -> Reader
        requires { Settled self }
        ensures { result ≡ reader_of (next room (state_of self) byte) }
    {
        if self.code != 0 {
            return self;
        }
        if self.columns == 0 {
            return self.header_byte(room, byte);
        }
        self.cell_byte(byte)
    }
}
