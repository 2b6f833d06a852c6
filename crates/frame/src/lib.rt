// A frame run: superblock steps over a list.
#![tactic(auto)]

pub mod run;
