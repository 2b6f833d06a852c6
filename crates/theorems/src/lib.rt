// Theorems about the definitions that the entry points cite; this crate has no code.
#![tactic(auto)]
