// What programs over grid files share. Each file is gone through twice, some bytes at a time: to check it whole, and again for
// its cells; a file that changes in between is told.
#![tactic(auto)]

pub mod again;
pub mod files;
pub mod output;
pub mod sums;
pub mod words;
