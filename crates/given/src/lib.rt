// What the system gives a program: its arguments, and files by name. No contract can say which bytes come.
#![tactic(auto)]

pub mod arguments;
pub mod files;
