// The predictors that a block takes from the cells of a grid.
#![tactic(auto)]

pub mod predictors;
pub mod threshold;
