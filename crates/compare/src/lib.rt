// Two grids cell by cell: which places differ, how many, and which comes next.
#![tactic(auto)]

pub mod calls;
pub mod cells;
