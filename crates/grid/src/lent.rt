ghost use Rattle.std.specs.Prelude.{◌≡◌, ◌<◌, length};
ghost use Rattle.grid.specs.Grid.{grid_of, room, stored_at, stats_at, with_cell};
ghost use Rattle.grid.specs.Previous.{previous};
ghost use Rattle.grid.specs.Lent.{lent, lent_mut, SameBuffers, previous_lent, SamePrevious};

use crate::cells::{MEStats, room};
use motion::vector::MotionVector;

// A grid lent to be read: its three buffers, as the C interface lends them.
#[derive(Clone, Copy)]
pub struct GridRef<'a> {
    pub rows: &'a [i16],
    pub cols: &'a [i16],
    pub sads: &'a [u32],
}

impl GridRef<'_> {
    // How many cells the shortest of its buffers has.
    pub fn room(&self) -> usize
        ensures { result ≡ room (lent self.now) }
    {
        room(self.rows.len(), self.cols.len(), self.sads.len())
    }

    // The vector stored in a cell.
    pub fn stored_at(&self, i: usize) -> MotionVector
        requires { (i < length self.now.rows.now) × (i < length self.now.cols.now) }
        ensures { result ≡ stored_at self.now.rows.now self.now.cols.now i }
    {
        MotionVector {
            row: self.rows[i],
            col: self.cols[i],
        }
    }

    // All that a cell holds.
    pub fn stats_at(&self, i: usize) -> MEStats
        requires { (i < length self.now.rows.now) × (i < length self.now.cols.now) × (i < length self.now.sads.now) }
        ensures { result ≡ stats_at (lent self.now) i }
    {
        MEStats {
            mv: self.stored_at(i),
            normalized_sad: self.sads[i],
        }
    }
}

// A grid lent to be written: its three buffers, as the C interface lends them.
#[derive(Drop)]
pub struct GridMut<'a> {
    pub rows: &'a mut [i16],
    pub cols: &'a mut [i16],
    pub sads: &'a mut [u32],
}

impl GridMut<'_> {
    // The same grid, to be read.
    pub fn read(&self) -> GridRef<'_>
        ensures { lent result ≡ lent_mut self.now }
    {
        GridRef {
            rows: &*self.rows,
            cols: &*self.cols,
            sads: &*self.sads,
        }
    }

    // How many cells the shortest of its buffers has.
    pub fn room(&self) -> usize
        ensures { result ≡ room (lent_mut self.now) }
    {
        self.read().room()
    }

    // One result in one cell.
    pub fn save_cell(&mut self, i: usize, stats: MEStats)
        requires { (i < length self.old.rows.now) × (i < length self.old.cols.now) × (i < length self.old.sads.now) }
        ensures saved { lent_mut self.new ≡ with_cell i stats (lent_mut self.old) }
        ensures same { SameBuffers self.old self.new }
    {
        self.rows[i] = stats.mv.row;
        self.cols[i] = stats.mv.col;
        self.sads[i] = stats.normalized_sad;
    }
}

// The previous grid that a C call means, whose `present` is 0 for an absent one.
pub fn previous<'a>(
    present: usize,
    rows: &'a [i16],
    cols: &'a [i16],
    sads: &'a [u32],
) -> Option<GridRef<'a>>
    ensures { SamePrevious (previous_lent result) (previous present (grid_of rows.now cols.now sads.now)) }
{
    if present == 0 {
        None
    } else {
        Some(GridRef { rows, cols, sads })
    }
}
