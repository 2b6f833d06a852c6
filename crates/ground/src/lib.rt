// What every crate above rests on: laws of lists, tests and words; this crate has no code.
#![tactic(auto)]
