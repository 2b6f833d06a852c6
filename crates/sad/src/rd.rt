ghost use Rattle.std.specs.Prelude.{◌≡◌, ◌*◌};
ghost use Rattle.motion.specs.Rate.{rate_v};
ghost use Rattle.sad.specs.Cost.{empty_rd, rd_of, sad_limit};
ghost use Rattle.sad.specs.Planes.{rd_in};

use crate::plane::{org_start, ref_start};
use crate::planes::BlockPlanes;
use crate::sad::get_sad;
use motion::rate::get_mv_rate;
use motion::vector::MotionVector;

// The cost of a candidate, with its sum of absolute differences.
#[derive(Clone, Copy, PartialEq, Eq, Debug)]
pub struct MVCandidateRD {
    pub cost: u64,
    pub sad: u32,
}

impl MVCandidateRD {
    // Dearer than any block can be.
    #[tactic(auto, unfolding(crate::specs::Cost::empty_rd))]
    pub fn empty() -> MVCandidateRD
        ensures { result ≡ empty_rd }
    {
        MVCandidateRD {
            cost: u64::MAX,
            sad: u32::MAX,
        }
    }
}

// What a vector's rate adds to a cost: nothing at weight 0, that of a run.
pub fn rate_part(weight: u32, cand_mv: MotionVector) -> u64
    ensures { result ≡ rate_v cand_mv * weight }
{
    if weight == 0 {
        return 0;
    }
    get_mv_rate(cand_mv) as u64 * weight as u64
}

pub fn compute_mv_rd(weight: u32, sad: u32, cand_mv: MotionVector) -> MVCandidateRD
    ensures { result ≡ rd_of weight sad cand_mv }
{
    MVCandidateRD {
        cost: 256 * sad as u64 + rate_part(weight, cand_mv),
        sad,
    }
}

// The least sum with which a candidate of such a rate part reaches a cost.
#[tactic(auto, unfolding(crate::specs::Cost::sad_limit))]
pub fn sad_limit(cost: u64, rate: u64) -> u64
    ensures { result ≡ sad_limit cost rate }
{
    cost.saturating_sub(rate).div_ceil(256)
}

// The cost of moving a block by a vector, in range or not.
pub fn get_fullpel_mv_rd(p: &BlockPlanes<'_>, cand_mv: MotionVector) -> MVCandidateRD
    ensures { result ≡ rd_in p.now cand_mv }
{
    let b = p.block;
    if !b.range.holds(cand_mv) {
        return MVCandidateRD::empty();
    }
    let src = org_start(b);
    let dst = ref_start(b, cand_mv);
    let sad = get_sad(p.cur, src, p.reference, dst, b.stride, b.w, b.h);
    compute_mv_rd(b.weight, sad, cand_mv)
}
