// The cells of a grid that a block samples: at most five, by their numbers.
#![tactic(auto)]

pub mod cells;
