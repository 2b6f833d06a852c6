// The refusals by name and number, and the tests behind them: sides, level, block start, planes and grid.
#![tactic(auto)]

pub mod kinds;
pub mod refusals;
