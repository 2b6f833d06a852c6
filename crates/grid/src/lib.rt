// The cells of a grid, how one is lent, and a result saved over those of a block.
#![tactic(auto)]

pub mod cells;
pub mod lent;
pub mod save;
