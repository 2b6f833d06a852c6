// A grid file that comes in fragments: a fragment taken in, and the entry points.
#![tactic(auto)]

pub mod calls;
pub mod fragment;
