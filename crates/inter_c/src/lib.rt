// The entry points of the search for C: those on a block, on a superblock and on a frame.
#![tactic(auto)]

pub mod blocks;
pub mod frames;
