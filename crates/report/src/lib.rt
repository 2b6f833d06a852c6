// Where two grids differ, as text: the lines of a report, put into lent bytes.
#![tactic(auto)]

pub mod lines;
pub mod steps;
