ghost use Rattle.std.specs.Prelude.{◌≡◌, ◌≤◌, ◌<◌};
ghost use Rattle.motion.specs.Limits.{largest_side};
ghost use Rattle.motion.specs.Superblock.{superblocks_along, superblocks, superblock_x, superblock_y};

use crate::limits::{CELL_SIDE, SB_SIZE};

// How many superblocks lie along a side. A side is a number here and in the contracts, as in the definitions and in C.
pub fn superblocks_along(side: usize) -> usize
    requires { side ≤ largest_side }
    ensures { result ≡ superblocks_along side }
{
    side.div_ceil(SB_SIZE)
}

// How many superblocks a frame has.
#[tactic(auto, unfolding(crate::specs::Superblock::superblocks))]
pub fn superblocks_of(width: usize, height: usize) -> usize
    requires { (width ≤ largest_side) × (height ≤ largest_side) }
    ensures { result ≡ superblocks width height }
{
    superblocks_along(width) * superblocks_along(height)
}

// The column of a superblock's first cell.
#[tactic(auto, unfolding(crate::specs::Superblock::superblock_x))]
pub fn superblock_x(width: usize, superblock: usize) -> usize
    requires { (0 < width) × (width ≤ largest_side) }
    ensures { result ≡ superblock_x width superblock }
{
    SB_SIZE / CELL_SIDE * (superblock % superblocks_along(width))
}

// The row of a superblock's first cell. It stands beside `superblock_x`, since the definitions name both.
#[tactic(auto, unfolding(crate::specs::Superblock::superblock_y))]
pub fn superblock_y(width: usize, superblock: usize) -> usize
    requires { (0 < width) × (width ≤ largest_side) × (superblock ≤ largest_side) }
    ensures { result ≡ superblock_y width superblock }
{
    SB_SIZE / CELL_SIDE * (superblock / superblocks_along(width))
}
