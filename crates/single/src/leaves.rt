ghost use Rattle.std.specs.Prelude.{◌≡◌};
ghost use Rattle.single.specs.Found.{found_from};
ghost use Rattle.single.specs.Leaves.{range_from, range_answer, candidate_answer};

use crate::call::{block_at, open};
use motion::range::MvRange;
use motion::vector::MotionVector;
use refusal::kinds::Refusal;
use refusal::refusals::BlockCall;
use search::result::MotionSearchResult;

// The range of a block, or one of the refusals 1 to 3.
pub fn range_of_block(call: BlockCall) -> Result<MvRange, Refusal>
    ensures { range_from result ≡ range_answer call.width call.height call.level call.refined call.bx call.by }
{
    call.test()?;
    Ok(block_at(call).range)
}

// A vector with its SAD and cost for a block, or one of the refusals 1 to 4.
pub fn candidate(
    call: BlockCall,
    cur: &[u8],
    reference: &[u8],
    mv: MotionVector,
    weight: u32,
) -> Result<MotionSearchResult, Refusal>
    ensures { found_from result ≡ candidate_answer call.width call.height call.level call.refined call.bx call.by cur.now reference.now mv weight }
{
    let p = open(call, cur, reference, weight)?;
    Ok(MotionSearchResult::measured(&p, mv))
}
