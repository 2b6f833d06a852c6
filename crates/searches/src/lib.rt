// The entry points that search for a single block: none asks anything of its caller; each gives document 01's refusals instead.
#![tactic(auto)]

pub mod calls;
pub mod refinement;
pub mod searches;
