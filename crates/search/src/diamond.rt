ghost use Rattle.std.specs.Prelude.{◌≡◌, true, ◌≤◌};
ghost use Rattle.motion.specs.Range.{in_range};
ghost use Rattle.motion.specs.Asked.{Near};
ghost use Rattle.sad.specs.Planes.{rd_in};
ghost use Rattle.search.specs.Diamond.{diamond_best, diamond};

use crate::result::{MotionSearchResult, try_pattern};
use motion::vector::MotionVector;
use points::patterns::Pattern;
use sad::planes::BlockPlanes;

// The cheapest of the four points round a centre.
#[tactic(auto, unfolding(crate::specs::Diamond::diamond_best, points::specs::Asked::Plain))]
fn diamond_round(p: &BlockPlanes<'_>, center: MotionVector, radius_log2: u32) -> MotionSearchResult
    requires { (radius_log2 ≤ 1) × Near center }
    ensures { result ≡ diamond_best (rd_in p.now) radius_log2 center }
{
    let pattern = Pattern::Diamond(radius_log2);
    try_pattern(p, pattern, center, MotionSearchResult::empty())
}

// Moves by the diamond, first of radius 2 pixels, then of 1, until it finds no cheaper point.
// The start is a plain record, as the definitions take it, so that its range stands in a clause.
pub fn fullpel_diamond_search(p: &BlockPlanes<'_>, start: MotionSearchResult) -> MotionSearchResult
    requires { in_range p.now.block.range start.mv ≡ true }
    ensures { result ≡ diamond (rd_in p.now) start }
{
    let mut current = start;
    let mut diamond_radius_log2: u32 = 1;
    loop {
        let best_cand = diamond_round(p, current.mv, diamond_radius_log2);
        if best_cand.rd.cost < current.rd.cost {
            current = best_cand;
        } else if diamond_radius_log2 == 0 {
            break;
        } else {
            diamond_radius_log2 -= 1;
        }
    }
    current
}
