ghost use Rattle.std.specs.Prelude.{◌≡◌};
ghost use Rattle.single.specs.Leaves.{range_from};

use motion::range::MvRange;
use refusal::kinds::Refusal;

// 0 or a refusal, and the ends of a block's range. The C interface has it so.
#[repr(C)]
#[derive(Clone, Copy, Debug, PartialEq, Eq)]
pub struct Range {
    pub code: u32,
    pub mvx_min: i16,
    pub mvx_max: i16,
    pub mvy_min: i16,
    pub mvy_max: i16,
}

impl From<Result<MvRange, Refusal>> for Range {
    ghost from_gives = { λ answer range. range ≡ range_from answer };

    fn from(answer: Result<MvRange, Refusal>) -> Range {
        match answer {
            Ok(r) => Range {
                code: 0,
                mvx_min: r.mvx_min,
                mvx_max: r.mvx_max,
                mvy_min: r.mvy_min,
                mvy_max: r.mvy_max,
            },
            Err(refusal) => Range {
                code: refusal.number(),
                mvx_min: 0,
                mvx_max: 0,
                mvy_min: 0,
                mvy_max: 0,
            },
        }
    }
}
