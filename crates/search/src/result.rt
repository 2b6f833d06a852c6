ghost use Rattle.std.specs.Prelude.{◌≡◌};
ghost use Rattle.motion.specs.Asked.{Near};
ghost use Rattle.sad.specs.Planes.{rd_in};
ghost use Rattle.points.specs.Asked.{Plain};
ghost use Rattle.search.specs.Result.{empty_result, measured, cheaper, try_one, try_pattern};

use motion::vector::MotionVector;
use points::patterns::{Pattern, pattern_point, pattern_points};
use sad::plane::{org_start, ref_start};
use sad::planes::BlockPlanes;
use sad::rd::{MVCandidateRD, get_fullpel_mv_rd, rate_part, sad_limit};
use sad::sad::get_sad_below;

// The best vector so far, with its cost and sum of absolute differences.
#[derive(Clone, Copy, PartialEq, Eq, Debug)]
pub struct MotionSearchResult {
    pub mv: MotionVector,
    pub rd: MVCandidateRD,
}

impl MotionSearchResult {
    // Dearer than any candidate in range.
    #[tactic(auto, unfolding(crate::specs::Result::empty_result))]
    pub fn empty() -> MotionSearchResult
        ensures { result ≡ empty_result }
    {
        MotionSearchResult {
            mv: MotionVector { row: 0, col: 0 },
            rd: MVCandidateRD::empty(),
        }
    }

    // A vector with its own sum and cost.
    pub fn measured(p: &BlockPlanes<'_>, mv: MotionVector) -> MotionSearchResult
        ensures { result ≡ measured (rd_in p.now) mv }
    {
        MotionSearchResult {
            mv,
            rd: get_fullpel_mv_rd(p, mv),
        }
    }

    // Moves to another record if that is cheaper; the first of equals stays.
    #[tactic(auto, unfolding(crate::specs::Result::cheaper))]
    pub fn move_to(self, other: MotionSearchResult) -> MotionSearchResult
        ensures { result ≡ cheaper self other }
    {
        if other.rd.cost < self.rd.cost {
            other
        } else {
            self
        }
    }

    // Tries a candidate. It is measured here, where the sum comes back in a register and no record through memory.
    pub fn try_mv(self, p: &BlockPlanes<'_>, cand_mv: MotionVector) -> MotionSearchResult
        ensures { result ≡ try_one (rd_in p.now) self cand_mv }
    {
        let b = p.block;
        // Out of range it costs the most, and the most is never cheaper.
        if !b.range.holds(cand_mv) {
            return self;
        }
        let rate = rate_part(p.block.weight, cand_mv);
        let limit = sad_limit(self.rd.cost, rate);
        if limit == 0 {
            return self;
        }
        let src = org_start(b);
        let dst = ref_start(b, cand_mv);
        let sad = get_sad_below(p.cur, src, p.reference, dst, b.stride, b.w, b.h, limit);
        // With the limit for its sum it is no cheaper.
        let rd = MVCandidateRD {
            cost: 256 * sad as u64 + rate,
            sad,
        };
        self.move_to(MotionSearchResult { mv: cand_mv, rd })
    }
}

// Tries every point of a pattern round a centre that stays.
// `Near` stays a clause: a centre is the vector of a record, which can hold any.
pub(crate) fn try_pattern(
    p: &BlockPlanes<'_>,
    pattern: Pattern,
    center: MotionVector,
    current: MotionSearchResult,
) -> MotionSearchResult
    requires { Plain pattern × Near center }
    ensures { result ≡ try_pattern (rd_in p.now) current pattern center }
{
    let mut best = current;
    for i in 0..pattern_points(pattern) {
        best = best.try_mv(p, pattern_point(pattern, center, i));
    }
    best
}
