ghost use Rattle.std.specs.Prelude.{◌≡◌, ◌<◌};
ghost use Rattle.motion.specs.Vector.{FitsV, plus_v, times_v, shr_v, shl_v, fullpel_v, fullpel};

use crate::limits::EIGHTHS;
use std::ops::{Add, Mul, Shl, Shr};

// A motion vector, in eighths of a pixel.
#[repr(C)]
#[derive(Clone, Copy, PartialEq, Eq, Debug)]
pub struct MotionVector {
    pub row: i16,
    pub col: i16,
}

impl Add for MotionVector {
    type Output = MotionVector;

    ghost can_add = { λ a b. FitsV (plus_v a b) };

    ghost add_gives = { λ a b r. r ≡ plus_v a b };

    #[tactic(auto, unfolding(crate::specs::Vector::plus_v))]
    fn add(self, rhs: MotionVector) -> MotionVector {
        MotionVector {
            row: self.row + rhs.row,
            col: self.col + rhs.col,
        }
    }
}

impl Mul<i16> for MotionVector {
    type Output = MotionVector;

    ghost can_mul = { λ v n. FitsV (times_v v n) };

    ghost mul_gives = { λ v n r. r ≡ times_v v n };

    #[tactic(auto, unfolding(crate::specs::Vector::times_v))]
    fn mul(self, rhs: i16) -> MotionVector {
        MotionVector {
            row: self.row * rhs,
            col: self.col * rhs,
        }
    }
}

impl Shr<u32> for MotionVector {
    type Output = MotionVector;

    ghost can_shr = { λ _ s. s < 16 };

    ghost shr_gives = { λ v s r. r ≡ shr_v v s };

    #[tactic(auto, using(std::proofs::lemmas::Int::ints), unfolding(crate::specs::Vector::shr_v))]
    fn shr(self, rhs: u32) -> MotionVector {
        MotionVector {
            row: self.row >> rhs,
            col: self.col >> rhs,
        }
    }
}

impl Shl<u32> for MotionVector {
    type Output = MotionVector;

    ghost can_shl = { λ v s. (s < 16) × FitsV (shl_v v s) };

    ghost shl_gives = { λ v s r. r ≡ shl_v v s };

    fn shl(self, rhs: u32) -> MotionVector {
        MotionVector {
            row: self.row << rhs,
            col: self.col << rhs,
        }
    }
}

impl MotionVector {
    #[tactic(auto, using(std::proofs::lemmas::Int::ints), unfolding(crate::specs::Vector::fullpel_v))]
    pub fn quantize_to_fullpel(self) -> MotionVector
        ensures { result ≡ fullpel_v self }
    {
        MotionVector {
            row: whole_pixels(self.row),
            col: whole_pixels(self.col),
        }
    }
}

#[tactic(auto, using(std::proofs::lemmas::Int::ints), unfolding(crate::specs::Vector::fullpel))]
fn whole_pixels(component: i16) -> i16
    ensures { result ≡ fullpel component }
{
    component / EIGHTHS * EIGHTHS
}
