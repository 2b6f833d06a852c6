// What is held between two fragments of a grid file, and one byte more.
#![tactic(auto)]

pub mod bytes;
pub mod check;
pub mod state;
