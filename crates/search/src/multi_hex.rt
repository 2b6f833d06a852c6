ghost use Rattle.std.specs.Prelude.{◌≡◌, true};
ghost use Rattle.motion.specs.Range.{in_range};
ghost use Rattle.motion.specs.Asked.{Near};
ghost use Rattle.sad.specs.Planes.{rd_in};
ghost use Rattle.search.specs.MultiHexagon.{cross, eighths_square, rings, multi_hexagon};

use crate::hexagon::hexagon_search;
use crate::result::{MotionSearchResult, try_pattern};
use points::patterns::Pattern;
use sad::planes::BlockPlanes;

// Rows, then columns, both round the start.
#[tactic(auto, unfolding(crate::specs::MultiHexagon::cross, points::specs::Asked::Plain))]
fn cross_search(p: &BlockPlanes<'_>, current: MotionSearchResult) -> MotionSearchResult
    requires { Near current.mv }
    ensures { result ≡ cross (rd_in p.now) current }
{
    let center = current.mv;
    let rows = try_pattern(p, Pattern::RowLine, center, current);
    try_pattern(p, Pattern::ColLine, center, rows)
}

// The 24 neighbours of the best so far, in eighths.
// This stage and the next differ in their pattern alone; they stand apart, as the definitions name both.
#[tactic(auto, unfolding(crate::specs::MultiHexagon::eighths_square, points::specs::Asked::Plain))]
fn eighths_square_search(p: &BlockPlanes<'_>, current: MotionSearchResult) -> MotionSearchResult
    requires { Near current.mv }
    ensures { result ≡ eighths_square (rd_in p.now) current }
{
    let center = current.mv;
    try_pattern(p, Pattern::Eighths, center, current)
}

// The sixteen points times 1 to 6, round the best so far.
#[tactic(auto, unfolding(crate::specs::MultiHexagon::rings, points::specs::Asked::Plain))]
fn rings_search(p: &BlockPlanes<'_>, current: MotionSearchResult) -> MotionSearchResult
    requires { Near current.mv }
    ensures { result ≡ rings (rd_in p.now) current }
{
    let center = current.mv;
    try_pattern(p, Pattern::Umh, center, current)
}

pub fn uneven_multi_hex_search(p: &BlockPlanes<'_>, start: MotionSearchResult) -> MotionSearchResult
    requires { in_range p.now.block.range start.mv ≡ true }
    ensures { result ≡ multi_hexagon (rd_in p.now) start }
{
    let crossed = cross_search(p, start);
    let near = eighths_square_search(p, crossed);
    let far = rings_search(p, near);
    hexagon_search(p, far)
}
