// The records of a grid file: numbers as bytes, and the parts that a file consists of.
#![tactic(auto)]

pub mod limits;
pub mod numbers;
pub mod parts;
