// The searches: the record of the best so far, diamond, hexagon, uneven multi-hexagon and full search.
#![tactic(auto)]

pub mod diamond;
pub mod full;
pub mod hexagon;
pub mod multi_hex;
pub mod result;
