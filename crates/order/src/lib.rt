// The order in which a frame run takes the superblocks.
#![tactic(auto)]

pub mod list;
