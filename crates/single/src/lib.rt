// The entry points that tell of a single block, its rate, range, candidates and predictors: none asks anything of its caller; each gives document 01's refusals instead.
#![tactic(auto)]

pub mod call;
pub mod calls;
pub mod found;
pub mod leaves;
pub mod predicting;
pub mod range;
