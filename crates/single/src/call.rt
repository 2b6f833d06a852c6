ghost use Rattle.std.specs.Prelude.{◌≡◌, length, IfOk};
ghost use Rattle.motion.specs.Block.{weighed};
ghost use Rattle.refusal.specs.Kinds.{code_of};
ghost use Rattle.refusal.specs.Refusals.{block_refusal, call_refusal};
ghost use Rattle.single.specs.Call.{block_at};

use motion::block::{Block, block_of};
use motion::level::level_of;
use refusal::kinds::Refusal;
use refusal::refusals::BlockCall;
use sad::planes::BlockPlanes;

// The block of a call that refusals 1 to 3 do not refuse.
#[tactic(auto, unfolding(crate::specs::Call::block_at))]
pub fn block_at(call: BlockCall) -> Block
    requires { block_refusal call.width call.height call.level call.refined call.bx call.by ≡ 0 }
    ensures { result ≡ block_at call.width call.height call.level call.refined call.bx call.by }
{
    block_of(
        call.width,
        call.height,
        level_of(call.level),
        call.size(),
        call.bx,
        call.by,
    )
}

// The block of a call at a weight, in the planes that are lent with it, or one of the refusals 1 to 4.
// Four values, as the entry points pass them; what they are together is the BlockPlanes that comes back.
pub fn open<'a>(
    call: BlockCall,
    cur: &'a [u8],
    reference: &'a [u8],
    weight: u32,
) -> Result<BlockPlanes<'a>, Refusal>
    ensures code { code_of result ≡ call_refusal call.width call.height call.level call.refined call.bx call.by (length cur.now) (length reference.now) }
    ensures opened { IfOk result (λ p. (p.block ≡ weighed (block_at call.width call.height call.level call.refined call.bx call.by) weight) × (p.cur.now ≡ cur.now) × (p.reference.now ≡ reference.now)) }
{
    call.test_with_planes(cur.len(), reference.len())?;
    let block = block_at(call).weighed(weight);
    Ok(BlockPlanes {
        block,
        cur,
        reference,
    })
}
