ghost use Rattle.std.specs.Prelude.{◌≡◌, ℕ, ◌≤◌, ◌<◌, ◌^◌, min, pos};
ghost use Rattle.std.specs.Int.Signed.{shr_z};
ghost use Rattle.motion.specs.Limits.{vector_limit};
ghost use Rattle.motion.specs.Range.{mv_min, mv_max, clip, range_of, within, in_range};

use crate::limits::VECTOR_LIMIT;
use crate::vector::MotionVector;

// The vectors that a block may take, both ends included. Four fields, since the definitions name the four ends.
#[derive(Clone, Copy, PartialEq, Eq, Debug)]
pub struct MvRange {
    pub mvx_min: i16,
    pub mvx_max: i16,
    pub mvy_min: i16,
    pub mvy_max: i16,
}

impl MvRange {
    pub fn holds(self, mv: MotionVector) -> bool
        ensures { result ≡ in_range self mv }
    {
        between(self.mvx_min, mv.col, self.mvx_max) && between(self.mvy_min, mv.row, self.mvy_max)
    }
}

#[tactic(auto, using(std::proofs::lemmas::Int::ints), unfolding(crate::specs::Range::within))]
fn between(low: i16, x: i16, high: i16) -> bool
    ensures { result ≡ within low x high }
{
    low <= x && x <= high
}

// A distance, kept inside the limit.
fn clipped(distance: usize) -> i16
    ensures { result ≡ pos (min distance vector_limit) }
{
    distance.min(VECTOR_LIMIT) as i16
}

// The ends are no twins: the low one counts the block's size, the high one the cells beyond its start.
fn mv_min(b: usize, size: usize, ssdec: u32) -> i16
    requires { (b < 2 ^ 32) × (size < 2 ^ 32) × (ssdec < 16) }
    ensures { result ≡ shr_z (clip (mv_min b size)) (2 ^ ssdec) }
{
    -clipped(32 * b + 128 + 8 * size) >> ssdec
}

fn mv_max(in_b: usize, b: usize, ssdec: u32) -> i16
    requires { (b ≤ in_b) × (in_b < 2 ^ 32) × (ssdec < 16) }
    ensures { (size : ℕ) → result ≡ shr_z (clip (mv_max in_b b size)) (2 ^ ssdec) }
{
    clipped(32 * (in_b - b) + 128) >> ssdec
}

// The range of the block of blk_w by blk_h full-size pixels at cell (bx, by), at shift ssdec: the numbers of the definition.
#[tactic(auto, using(std::proofs::lemmas::Int::ints), unfolding(crate::specs::Range::range_of))]
pub(crate) fn get_mv_range(
    w_in_b: usize,
    h_in_b: usize,
    bx: usize,
    by: usize,
    blk_w: usize,
    blk_h: usize,
    ssdec: u32,
) -> MvRange
    requires inside { (bx ≤ w_in_b) × (w_in_b < 2 ^ 32) × (by ≤ h_in_b) × (h_in_b < 2 ^ 32) }
    requires small { (blk_w < 2 ^ 32) × (blk_h < 2 ^ 32) × (ssdec < 16) }
    ensures { result ≡ range_of w_in_b h_in_b bx by blk_w blk_h ssdec }
{
    MvRange {
        mvx_min: mv_min(bx, blk_w, ssdec),
        mvx_max: mv_max(w_in_b, bx, ssdec),
        mvy_min: mv_min(by, blk_h, ssdec),
        mvy_max: mv_max(h_in_b, by, ssdec),
    }
}
