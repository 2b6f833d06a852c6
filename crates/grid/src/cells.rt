ghost use Rattle.std.specs.Prelude.{◌≡◌, ◌≤◌, min};
ghost use Rattle.motion.specs.Limits.{largest_side};
ghost use Rattle.grid.specs.Grid.{cell_at};

use motion::limits::CELL_SIDE;
use motion::vector::MotionVector;

// What a cell of the grid holds.
#[derive(Clone, Copy, Debug, PartialEq, Eq)]
pub struct MEStats {
    pub mv: MotionVector,
    pub normalized_sad: u32,
}

// The number of the cell at column bx of row by.
pub fn cell_at(width: usize, bx: usize, by: usize) -> usize
    requires { (width ≤ largest_side) × (bx ≤ largest_side) × (by ≤ largest_side) }
    ensures { result ≡ cell_at width bx by }
{
    by * (width / CELL_SIDE) + bx
}

// How many cells the shortest of a grid's buffers has.
pub fn room(rows: usize, cols: usize, sads: usize) -> usize
    ensures { result ≡ min rows (min cols sads) }
{
    rows.min(cols.min(sads))
}
