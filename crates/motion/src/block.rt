ghost use Rattle.std.specs.Prelude.{◌≡◌, ◌*◌, ◌≤◌, ◌<◌};
ghost use Rattle.motion.specs.Limits.{largest_side, cell_side};
ghost use Rattle.motion.specs.Block.{plane_of, block_of, cropped_to, weighed};

use crate::level::Level;
use crate::limits::CELL_SIDE;
use crate::range::{MvRange, get_mv_range};

// How a plane of a level lies in its slice.
#[derive(Clone, Copy, PartialEq, Eq, Debug)]
pub struct Plane {
    pub stride: usize,
    pub rows: usize,
    pub pad: usize,
}

// A block at a level's shift: where it stands in the frame and its plane, its size, its vectors, and what their rate weighs.
#[derive(Clone, Copy, PartialEq, Eq, Debug)]
pub struct Block {
    pub po_x: usize,
    pub po_y: usize,
    pub w: usize,
    pub h: usize,
    pub stride: usize,
    pub pad: usize,
    pub range: MvRange,
    pub weight: u32,
}

impl Block {
    // The same block at another weight.
    pub fn weighed(self, weight: u32) -> Block
        ensures { result ≡ weighed self weight }
    {
        Block { weight, ..self }
    }
}

#[tactic(auto, unfolding(crate::specs::Block::plane_of))]
pub fn plane_of(width: usize, height: usize, level: Level) -> Plane
    requires { (width ≤ largest_side) × (height ≤ largest_side) × (level.ssdec < 16) × (level.pad ≤ largest_side) }
    ensures { result ≡ plane_of width height level }
{
    let ssdec = level.ssdec;
    let pad = level.pad;
    Plane {
        stride: (width >> ssdec) + 2 * pad,
        rows: (height >> ssdec) + 2 * pad,
        pad,
    }
}

// A block's side in full-size pixels, cropped at the frame's edge.
#[tactic(auto, unfolding(crate::specs::Block::cropped_to))]
pub fn cropped(side: usize, mv_size: usize, b: usize) -> usize
    requires { (cell_side * b ≤ side) × (side ≤ largest_side) }
    ensures { result ≡ cropped_to side mv_size b }
{
    mv_size.min(side - CELL_SIDE * b)
}

// A block whose rates weigh nothing. The numbers stay apart, as the definitions in every caller's contract take them.
pub fn block_of(
    width: usize,
    height: usize,
    level: Level,
    mv_size: usize,
    bx: usize,
    by: usize,
) -> Block
    requires inside { (cell_side * bx ≤ width) × (width ≤ largest_side) × (cell_side * by ≤ height) × (height ≤ largest_side) }
    requires small { (level.ssdec < 16) × (level.pad ≤ largest_side) × (mv_size ≤ largest_side) }
    ensures { result ≡ block_of width height level mv_size bx by }
{
    let ssdec = level.ssdec;
    let blk_w = cropped(width, mv_size, bx);
    let blk_h = cropped(height, mv_size, by);
    let w_in_b = width / CELL_SIDE;
    let h_in_b = height / CELL_SIDE;
    let range = get_mv_range(w_in_b, h_in_b, bx, by, blk_w, blk_h, ssdec);
    let plane = plane_of(width, height, level);
    Block {
        po_x: (CELL_SIDE * bx) >> ssdec,
        po_y: (CELL_SIDE * by) >> ssdec,
        w: blk_w >> ssdec,
        h: blk_h >> ssdec,
        stride: plane.stride,
        pad: plane.pad,
        range,
        weight: 0,
    }
}
