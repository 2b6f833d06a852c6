// A grid on disk: its file written into lent bytes, and read from them.
#![tactic(auto)]

pub mod calls;
pub mod extent;
pub mod read;
pub mod write;
