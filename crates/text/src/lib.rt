// Text put into lent bytes: words, and numbers as they are spelled. Not by Display: what a Formatter writes to may fail, and no
// function here can.
#![tactic(auto)]

pub mod number;
pub mod writer;
