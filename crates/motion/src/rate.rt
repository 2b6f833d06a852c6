ghost use Rattle.std.specs.Prelude.{◌≡◌};
ghost use Rattle.motion.specs.Rate.{rate, rate_v};

use crate::vector::MotionVector;

// Twice the bit length of half the difference.
pub fn diff_to_rate(diff: i16) -> u32
    ensures { result ≡ rate diff }
{
    2 * (16 - (diff >> 1).unsigned_abs().leading_zeros())
}

// The rate of a vector, against the zero vector as everywhere in the search.
pub fn get_mv_rate(a: MotionVector) -> u32
    ensures { result ≡ rate_v a }
{
    diff_to_rate(a.row) + diff_to_rate(a.col)
}
