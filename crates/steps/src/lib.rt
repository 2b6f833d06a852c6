// The entry point on a superblock: it asks nothing of its caller, and gives document 01's refusals instead.
#![tactic(auto)]

pub mod calls;
pub mod steps;
