// A superblock step.
#![tactic(auto)]

mod blocks;
pub mod step;
