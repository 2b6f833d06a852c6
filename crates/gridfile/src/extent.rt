ghost use Rattle.std.specs.Prelude.{◌≡◌, ◌*◌, ◌≤◌, ◌<◌};
ghost use Rattle.records.specs.Forms.{plain_forms, most_cells};
ghost use Rattle.records.specs.Records.{file_bytes};

use records::limits::{CELL_BYTES, HEADER_BYTES};

// Columns and rows of cells, as a header can say them.
#[derive(Clone, Copy, Debug, PartialEq, Eq)]
pub struct Extent {
    pub columns: usize,
    pub rows: usize,
    pub ghost wide: { (0 < columns) × (columns ≤ most_cells) },
    pub ghost high: { (0 < rows) × (rows ≤ most_cells) },
}

impl Extent {
    pub fn cells(self) -> usize
        ensures { result ≡ self.columns * self.rows }
    {
        self.columns * self.rows
    }

    // How many bytes the whole file has.
    pub fn file_bytes(self) -> usize
        ensures { result ≡ file_bytes plain_forms (self.columns * self.rows) }
    {
        HEADER_BYTES + CELL_BYTES * self.cells()
    }
}
