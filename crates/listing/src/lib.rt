// A grid as text: the lines of its listing, put into lent bytes, and the parts that lines about cells have in common.
#![tactic(auto)]

pub mod blocks;
pub mod cells;
pub mod lines;
