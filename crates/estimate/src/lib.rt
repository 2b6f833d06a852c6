// The search and the refinement of one block, and what a level of a run works with.
#![tactic(auto)]

pub mod block;
pub mod inputs;
pub mod planes;
mod searched;
