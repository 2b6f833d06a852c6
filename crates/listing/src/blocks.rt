ghost use Rattle.std.specs.Prelude.{◌≡◌, ◌+◌, ◌*◌, ◌≤◌, length};
ghost use Rattle.records.specs.Forms.{cell_bytes};
ghost use Rattle.text.specs.Put.{Puts};
ghost use Rattle.listing.specs.Parts.{line_room};
ghost use Rattle.listing.specs.Cells.{record_cells};
ghost use Rattle.listing.specs.Steps.{Open, listing_start, step_bytes, later};

use crate::lines::put_listed;
use records::limits::CELL_BYTES;
use records::parts::get_cell;
use text::writer::Writer;

// What goes from a step to the next: cells across, and the place of the next cell.
#[derive(Clone, Copy, Debug, PartialEq, Eq)]
pub struct Listing {
    pub across: usize,
    pub next: usize,
}

impl Listing {
    // No cell has gone by.
    pub fn new(across: usize) -> Listing
        ensures { result ≡ listing_start across }
    {
        Listing { across, next: 0 }
    }

    // A step: so many cell records of a file, whose lines are put. The count stands beside the bytes, as the definition
    // `record_cells` takes both.
    pub fn step(&mut self, cells: &[u8], count: usize, w: &mut Writer<'_>)
        requires { Open self.old count × (w.old.at + line_room * count ≤ length w.old.out.now) × (cell_bytes * count ≤ length cells.now) }
        ensures went_on { self.new ≡ later self.old count }
        ensures put { Puts (step_bytes self.old (record_cells cells.now count)) w.old w.new }
    {
        for i in 0..count {
            let cell = get_cell(cells, CELL_BYTES * i);
            put_listed(self.across, self.next + i, cell, w);
        }
        self.next += count;
    }
}
