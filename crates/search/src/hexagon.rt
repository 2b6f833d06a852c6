ghost use Rattle.std.specs.Prelude.{◌≡◌, true, ◌<◌};
ghost use Rattle.motion.specs.Range.{in_range};
ghost use Rattle.motion.specs.Asked.{Near};
ghost use Rattle.sad.specs.Planes.{rd_in};
ghost use Rattle.search.specs.Hexagon.{try_index, hexagon_six, hexagon_three, square_round, hexagon};

use crate::result::{MotionSearchResult, try_pattern};
use motion::vector::MotionVector;
use points::patterns::{Pattern, hexagon_point};
use sad::planes::BlockPlanes;

// The cheapest point so far of one round, with its index in the hexagon.
#[derive(Clone, Copy, PartialEq, Eq, Debug)]
pub struct HexCand {
    pub idx: usize,
    pub best: MotionSearchResult,
}

fn try_index(p: &BlockPlanes<'_>, center: MotionVector, i: usize, cand: HexCand) -> HexCand
    requires { (i < 6) × Near center }
    ensures { result ≡ try_index (rd_in p.now) center cand i }
{
    let before = cand.best;
    let best = before.try_mv(p, hexagon_point(center, i));
    if best.rd.cost < before.rd.cost {
        HexCand { idx: i, best }
    } else {
        cand
    }
}

// All six points.
fn hexagon_six(p: &BlockPlanes<'_>, center: MotionVector) -> HexCand
    requires { Near center }
    ensures { result ≡ hexagon_six (rd_in p.now) center }
{
    let mut cand = HexCand {
        idx: 0,
        best: MotionSearchResult::empty(),
    };
    for i in 0..6 {
        cand = try_index(p, center, i, cand);
    }
    cand
}

// The three points that the move by `idx` has not tried yet.
#[tactic(auto, unfolding(crate::specs::Hexagon::hexagon_three))]
fn hexagon_three(p: &BlockPlanes<'_>, center: MotionVector, idx: usize) -> HexCand
    requires { (idx < 6) × Near center }
    ensures { result ≡ hexagon_three (rd_in p.now) center idx }
{
    let none = HexCand {
        idx,
        best: MotionSearchResult::empty(),
    };
    let first = try_index(p, center, (idx + 5) % 6, none);
    let second = try_index(p, center, idx, first);
    try_index(p, center, (idx + 1) % 6, second)
}

// One round of the eight square points.
#[tactic(auto, unfolding(crate::specs::Hexagon::square_round, points::specs::Asked::Plain))]
fn square_refine(p: &BlockPlanes<'_>, current: MotionSearchResult) -> MotionSearchResult
    requires { Near current.mv }
    ensures { result ≡ square_round (rd_in p.now) current }
{
    let empty = MotionSearchResult::empty();
    let best_cand = try_pattern(p, Pattern::Square, current.mv, empty);
    current.move_to(best_cand)
}

// Moves by the hexagon while it finds a cheaper point, then tries the square once.
pub fn hexagon_search(p: &BlockPlanes<'_>, start: MotionSearchResult) -> MotionSearchResult
    requires { in_range p.now.block.range start.mv ≡ true }
    ensures { result ≡ hexagon (rd_in p.now) start }
{
    let mut current = start;
    let mut cand = hexagon_six(p, current.mv);
    while cand.best.rd.cost < current.rd.cost {
        current = cand.best;
        cand = hexagon_three(p, current.mv, cand.idx);
    }
    square_refine(p, current)
}
