ghost use Rattle.std.specs.Prelude.{◌≡◌};
ghost use Rattle.single.specs.Found.{refused, found_of, found_from};

use motion::vector::MotionVector;
use refusal::kinds::Refusal;
use sad::rd::MVCandidateRD;
use search::result::MotionSearchResult;

// What a single search, a refinement or a candidate gives: 0 or a refusal, and a vector with its SAD and cost. The C interface has it so.
#[repr(C)]
#[derive(Clone, Copy, Debug, PartialEq, Eq)]
pub struct Found {
    pub code: u32,
    pub row: i16,
    pub col: i16,
    pub sad: u32,
    pub cost: u64,
}

impl Found {
    #[tactic(auto, unfolding(crate::specs::Found::refused))]
    pub fn refuse(code: u32) -> Found
        ensures { result ≡ refused code }
    {
        Found {
            code,
            row: 0,
            col: 0,
            sad: 0,
            cost: 0,
        }
    }

    pub fn done(mv: MotionVector, rd: MVCandidateRD) -> Found
        ensures { result ≡ found_of mv rd }
    {
        Found {
            code: 0,
            row: mv.row,
            col: mv.col,
            sad: rd.sad,
            cost: rd.cost,
        }
    }
}

impl From<Result<MotionSearchResult, Refusal>> for Found {
    ghost from_gives = { λ answer found. found ≡ found_from answer };

    #[tactic(auto, unfolding(crate::specs::Found::found_from))]
    fn from(answer: Result<MotionSearchResult, Refusal>) -> Found {
        match answer {
            Ok(best) => Found::done(best.mv, best.rd),
            Err(refusal) => Found::refuse(refusal.number()),
        }
    }
}
