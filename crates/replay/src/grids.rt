ghost use Rattle.std.specs.Prelude.{◌≤◌, ◌<◌};

use crate::sample::PRIME;

// No side of a frame is longer than this.
pub(crate) const LARGEST: usize = 136;

// No frame has more cells on a side.
pub(crate) const CELLS: usize = 34;

// Nor more in all.
pub(crate) const LARGEST_GRID: usize = CELLS * CELLS;

// The number of a cell. Not grid's `cell_at`: its promise says no bound, which is all that is asked here.
pub(crate) fn cell(width: usize, bx: usize, by: usize) -> usize
    requires { (width ≤ 136) × (bx < 34) × (by < 34) }
    ensures { result < 1156 }
{
    by * (width / 4) + bx
}

// How many cells a frame has: as above, for the bound alone.
pub(crate) fn cells(width: usize, height: usize) -> usize
    requires { (width ≤ 136) × (height ≤ 136) }
    ensures { result ≤ 1156 }
{
    width / 4 * (height / 4)
}

fn folded(sum: usize, n: usize) -> usize
    requires { (sum < 2147483647) × (n < 4294967296) }
    ensures { result < 2147483647 }
{
    (sum * 65599 + n) % PRIME
}

// A component raised, so that it is never negative.
fn raised(v: i16) -> usize
    ensures { result < 65536 }
{
    (i64::from(v) + 32768) as usize
}

fn cell_folded(sum: usize, row: i16, col: i16, sad: u32) -> usize
    requires { sum < 2147483647 }
    ensures { result < 2147483647 }
{
    let with_row = folded(sum, raised(row));
    let with_col = folded(with_row, raised(col));
    folded(with_col, sad as usize)
}

// The cells of the largest grid: three arrays, as the entry points are lent them.
#[derive(Drop)]
pub(crate) struct Grid {
    pub(crate) rows: [i16; LARGEST_GRID],
    pub(crate) cols: [i16; LARGEST_GRID],
    pub(crate) sads: [u32; LARGEST_GRID],
}

impl Grid {
    // Both components of all cells hold this.
    pub(crate) fn new(component: i16) -> Grid {
        Grid {
            rows: [component; LARGEST_GRID],
            cols: [component; LARGEST_GRID],
            sads: [0; LARGEST_GRID],
        }
    }

    // The previous grid, as the published Rust was given it: rows from -128 on, columns from -192.
    pub(crate) fn previous() -> Grid {
        let mut cells = Grid::new(0);
        for i in 0..LARGEST_GRID {
            cells.rows[i] = (i * 37 % 257) as i16 - 128;
            cells.cols[i] = (i * 91 % 385) as i16 - 192;
            cells.sads[i] = (i * 7919 % 65536) as u32;
        }
        cells
    }

    // The sum over the first cells, as the published Rust's was made.
    pub(crate) fn sum(&self, count: usize) -> usize
        requires { count ≤ 1156 }
    {
        let mut sum = 0;
        for i in 0..count {
            sum = cell_folded(sum, self.rows[i], self.cols[i], self.sads[i]);
        }
        sum
    }
}
