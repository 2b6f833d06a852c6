ghost use Rattle.std.specs.Prelude.{◌≡◌, true, ◌+◌, ◌*◌, ◌/◌, ◌≤◌, ℕ};
ghost use Rattle.arrayvec.specs.ArrayVec.{array_vec_len};
ghost use Rattle.motion.specs.Limits.{largest_side, cell_side};
ghost use Rattle.motion.specs.Level.{level_of};
ghost use Rattle.sampled.specs.Sampled.{cells_along, neighbours, centre_cell, odd_block, cells_b, cells_c};

use arrayvec::ArrayVec;
use grid::cells::cell_at;
use motion::block::cropped;
use motion::level::level_of;
use motion::limits::{CELL_SIDE, SB_SIZE};

// Where a block of mv_size pixels stands: at cell (bx, by) of a frame, no further than its edges.
#[derive(Clone, Copy, Debug, PartialEq, Eq)]
pub struct Spot {
    pub width: usize,
    pub height: usize,
    pub mv_size: usize,
    pub bx: usize,
    pub by: usize,
    ghost inside: { (cell_side * bx ≤ width) × (width ≤ largest_side) × (cell_side * by ≤ height) × (height ≤ largest_side) },
}

impl Spot {
    // The cells beside the middles of a block's edges, those inside the grid; right and bottom only where asked for.
    #[tactic(auto, unfolding(crate::specs::Sampled::neighbours, crate::specs::Sampled::taken))]
    fn neighbours(self, right: bool, bottom: bool) -> ArrayVec<usize, 5>
        ensures cells { result.items ≡ neighbours self.width self.height self.mv_size self.bx self.by right bottom }
        ensures few { array_vec_len result ≤ 4 }
    {
        let w = cells_along(self.width, self.mv_size, self.bx);
        let h = cells_along(self.height, self.mv_size, self.by);
        let x = self.bx + w / 2;
        let y = self.by + h / 2;
        let end_x = self.bx + w;
        let end_y = self.by + h;
        let mut cells = ArrayVec::new();
        if 0 < self.bx {
            cells.push(cell_at(self.width, self.bx - 1, y));
        }
        if 0 < self.by {
            cells.push(cell_at(self.width, x, self.by - 1));
        }
        if right && end_x < self.width / CELL_SIDE {
            cells.push(cell_at(self.width, end_x, y));
        }
        if bottom && end_y < self.height / CELL_SIDE {
            cells.push(cell_at(self.width, x, end_y));
        }
        cells
    }

    // The cell in a block's middle.
    #[tactic(auto, unfolding(crate::specs::Sampled::centre_cell))]
    pub fn centre_cell(self) -> usize
        ensures { result ≡ centre_cell self.width self.height self.mv_size self.bx self.by }
    {
        let w = cells_along(self.width, self.mv_size, self.bx);
        let h = cells_along(self.height, self.mv_size, self.by);
        cell_at(self.width, self.bx + w / 2, self.by + h / 2)
    }

    // The cells of B.
    #[tactic(auto, unfolding(crate::specs::Sampled::cells_b))]
    pub fn cells_b(self, level: usize) -> ArrayVec<usize, 5>
        requires { self.mv_size ≡ (level_of level).mv_size }
        ensures cells { result.items ≡ cells_b self.width self.height level self.bx self.by }
        ensures few { array_vec_len result ≤ 4 }
    {
        let right = odd_block(level, self.bx);
        let bottom = odd_block(level, self.by);
        self.neighbours(right, bottom)
    }

    // The cells of C, if a previous grid is present. A bool, as the definition has it.
    #[tactic(auto, unfolding(crate::specs::Sampled::cells_c))]
    pub fn cells_c(self, present: bool) -> ArrayVec<usize, 5>
        ensures { (level : ℕ) → self.mv_size ≡ (level_of level).mv_size → result.items ≡ cells_c self.width self.height level self.bx self.by present }
    {
        if !present {
            return ArrayVec::new();
        }
        let middle = self.centre_cell();
        let mut cells = self.neighbours(true, true);
        cells.push(middle);
        cells
    }
}

// A block's width or height in cells.
#[tactic(auto, unfolding(crate::specs::Sampled::cells_along, motion::specs::Block::cropped_to))]
fn cells_along(side: usize, mv_size: usize, b: usize) -> usize
    requires { (cell_side * b ≤ side) × (side ≤ largest_side) }
    ensures along { result ≡ cells_along side mv_size b }
    ensures ends { b + result ≤ side / cell_side }
{
    cropped(side, mv_size, b) / CELL_SIDE
}

// Whether a block's column or row in its superblock is odd, at levels 3 and 2.
#[tactic(auto, unfolding(crate::specs::Sampled::odd_block))]
fn odd_block(level: usize, b: usize) -> bool
    requires { b ≤ largest_side }
    ensures { result ≡ odd_block level b }
{
    level != 4 && (CELL_SIDE * b) % SB_SIZE / level_of(level).mv_size % 2 == 1
}
