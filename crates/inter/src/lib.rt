// The entry point on a frame: it asks nothing of its caller, and gives document 01's refusals instead.
#![tactic(auto)]

pub mod calls;
pub mod runs;
