// Vectors, their rate, the range of a block, levels and the geometry of blocks and superblocks.
#![tactic(auto)]

pub mod block;
pub mod level;
pub mod limits;
pub mod range;
pub mod rate;
pub mod superblocks;
pub mod vector;
