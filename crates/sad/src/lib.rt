// Where a sample lies, the sum of absolute differences of two blocks, and the cost of a candidate.
#![tactic(auto)]

mod pair;
pub mod plane;
pub mod planes;
pub mod rd;
pub mod sad;
