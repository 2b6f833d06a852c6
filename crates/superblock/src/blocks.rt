ghost use Rattle.std.specs.Prelude.{◌≡◌, ◌*◌, ◌≤◌, ◌<◌};
ghost use Rattle.motion.specs.Frame.{Side};
ghost use Rattle.motion.specs.Limits.{largest_side, cell_side, superblock_side};
ghost use Rattle.motion.specs.Superblock.{superblocks};
ghost use Rattle.superblock.specs.Step.{blocks_along, block_count, block_x, block_y};

use motion::limits::{CELL_SIDE, SB_SIZE};
use motion::superblocks::{superblock_x, superblock_y};

// How many blocks of a size lie along a side of the superblock whose first cell is b.
fn blocks_along(side: usize, mv_size: usize, b: usize) -> usize
    requires { (side ≤ largest_side) × (cell_side * b ≤ side) × (0 < mv_size) × (mv_size ≤ superblock_side) }
    ensures { result ≡ blocks_along side mv_size b }
{
    let left = side - CELL_SIDE * b;
    left.min(SB_SIZE).div_ceil(mv_size)
}

// The blocks of a size in a superblock of a frame.
#[derive(Clone, Copy, Debug, PartialEq, Eq)]
pub(crate) struct Blocks {
    pub(crate) width: usize,
    pub(crate) height: usize,
    pub(crate) mv_size: usize,
    pub(crate) superblock: usize,
    pub(crate) ghost wide: { Side width },
    pub(crate) ghost high: { Side height },
    pub(crate) ghost some: { 0 < mv_size },
    pub(crate) ghost most: { mv_size ≤ superblock_side },
    pub(crate) ghost inside: { superblock < superblocks width height },
}

impl Blocks {
    // How many there are.
    pub(crate) fn count(&self) -> usize
        ensures { result ≡ block_count self.now.width self.now.height self.now.mv_size self.now.superblock }
    {
        let x = superblock_x(self.width, self.superblock);
        let y = superblock_y(self.width, self.superblock);
        blocks_along(self.width, self.mv_size, x) * blocks_along(self.height, self.mv_size, y)
    }

    // The column of block k.
    pub(crate) fn x(&self, k: usize) -> usize
        ensures { result ≡ block_x self.now.width self.now.mv_size self.now.superblock k }
    {
        let first = superblock_x(self.width, self.superblock);
        first + self.mv_size / CELL_SIDE * (k % blocks_along(self.width, self.mv_size, first))
    }

    // The row of block k. It stands beside `x`, since the definitions name both.
    pub(crate) fn y(&self, k: usize) -> usize
        requires { k ≤ largest_side }
        ensures { result ≡ block_y self.now.width self.now.mv_size self.now.superblock k }
    {
        let first = superblock_x(self.width, self.superblock);
        let across = blocks_along(self.width, self.mv_size, first);
        superblock_y(self.width, self.superblock) + self.mv_size / CELL_SIDE * (k / across)
    }
}
