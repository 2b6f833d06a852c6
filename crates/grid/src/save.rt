ghost use Rattle.std.specs.Prelude.{◌≡◌, ◌+◌, ◌/◌, ◌≤◌, ◌<◌, min, length};
ghost use Rattle.motion.specs.Limits.{largest_side, cell_side};
ghost use Rattle.grid.specs.Grid.{Held};
ghost use Rattle.grid.specs.Save.{up_to, save_where, save_block};
ghost use Rattle.grid.specs.Lent.{lent_mut, SameBuffers};

use crate::cells::{MEStats, cell_at};
use crate::lent::GridMut;
use motion::limits::CELL_SIDE;

// Where a block's cells end along a side, cropped at the frame.
fn block_end(side: usize, mv_size: usize, b: usize) -> usize
    requires { (side ≤ largest_side) × (mv_size ≤ largest_side) × (b ≤ largest_side) }
    ensures { result ≡ min (b + mv_size / cell_side) (side / cell_side) }
{
    (b + mv_size / CELL_SIDE).min(side / CELL_SIDE)
}

impl GridMut<'_> {
    // One result over the cells from `from` up to `to`.
    fn fill(&mut self, from: usize, to: usize, stats: MEStats)
        requires from_le_to { «from» ≤ to }
        requires to_in_bounds { (to ≤ length self.old.rows.now) × (to ≤ length self.old.cols.now) × (to ≤ length self.old.sads.now) }
        ensures saved { lent_mut self.new ≡ save_where (up_to «from» to) stats (lent_mut self.old) }
        ensures same { SameBuffers self.old self.new }
    {
        self.rows[from..to].fill(stats.mv.row);
        self.cols[from..to].fill(stats.mv.col);
        self.sads[from..to].fill(stats.normalized_sad);
    }

    // The same over at most three cells. A loop or a `fill` here would be widened, and costs a run over a flat frame 3 % more instructions.
    fn save_rest(&mut self, from: usize, to: usize, stats: MEStats)
        requires few { («from» ≤ to) × (to ≤ «from» + 3) }
        requires to_in_bounds { (to ≤ length self.old.rows.now) × (to ≤ length self.old.cols.now) × (to ≤ length self.old.sads.now) }
        ensures saved { lent_mut self.new ≡ save_where (up_to «from» to) stats (lent_mut self.old) }
        ensures same { SameBuffers self.old self.new }
    {
        if from == to {
            return;
        }
        self.save_cell(from, stats);
        if from + 1 == to {
            return;
        }
        self.save_cell(from + 1, stats);
        if from + 2 == to {
            return;
        }
        self.save_cell(from + 2, stats);
    }

    // The same four at a time, of which the compiler makes one store in each buffer. One `fill` of all costs that run 20 % more.
    fn save_row(&mut self, from: usize, to: usize, stats: MEStats)
        requires from_le_to { «from» ≤ to }
        requires to_in_bounds { (to ≤ length self.old.rows.now) × (to ≤ length self.old.cols.now) × (to ≤ length self.old.sads.now) }
        ensures saved { lent_mut self.new ≡ save_where (up_to «from» to) stats (lent_mut self.old) }
        ensures same { SameBuffers self.old self.new }
    {
        for fours in 0..(to - from) / 4 {
            let i = from + 4 * fours;
            self.fill(i, i + 4, stats);
        }
        self.save_rest(to - (to - from) % 4, to, stats);
    }

    // One result over the cells of a block, cropped at the frame.
    // Width and height stay two numbers, as the definitions and C have them.
    pub fn save_me_stats(
        &mut self,
        width: usize,
        height: usize,
        mv_size: usize,
        bx: usize,
        by: usize,
        stats: MEStats,
    )
        requires inside { (width ≤ largest_side) × (height ≤ largest_side) × (mv_size ≤ largest_side) × (bx < width / cell_side) × (by < height / cell_side) }
        requires held { Held width height (lent_mut self.old) }
        ensures saved { lent_mut self.new ≡ save_block width height mv_size bx by stats (lent_mut self.old) }
        ensures same { SameBuffers self.old self.new }
    {
        let x_end = block_end(width, mv_size, bx);
        for y in by..block_end(height, mv_size, by) {
            let from = cell_at(width, bx, y);
            let to = cell_at(width, x_end, y);
            self.save_row(from, to, stats);
        }
    }
}
