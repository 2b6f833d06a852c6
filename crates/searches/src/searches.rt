ghost use Rattle.std.specs.Prelude.{◌≡◌, true};
ghost use Rattle.motion.specs.Range.{in_range};
ghost use Rattle.sad.specs.Planes.{rd_in};
ghost use Rattle.single.specs.Found.{found_from};
ghost use Rattle.searches.specs.Searches.{search_by, search_answer};

use motion::vector::MotionVector;
use refusal::kinds::Refusal;
use refusal::refusals::BlockCall;
use sad::planes::BlockPlanes;
use search::diamond::fullpel_diamond_search;
use search::hexagon::hexagon_search;
use search::multi_hex::uneven_multi_hex_search;
use search::result::MotionSearchResult;
use single::call::open;

// The single searches.
#[derive(Clone, Copy, Debug, PartialEq, Eq)]
pub enum Method {
    Diamond,
    Hexagon,
    MultiHexagon,
}

// The method is a value and no closure, since the promises name a search by it.
#[tactic(auto, unfolding(crate::specs::Searches::search_by))]
fn search_by(method: Method, p: &BlockPlanes<'_>, start: MotionSearchResult) -> MotionSearchResult
    requires { in_range p.now.block.range start.mv ≡ true }
    ensures { result ≡ search_by method (rd_in p.now) start }
{
    match method {
        Method::Diamond => fullpel_diamond_search(p, start),
        Method::Hexagon => hexagon_search(p, start),
        Method::MultiHexagon => uneven_multi_hex_search(p, start),
    }
}

// What a search finds from a start vector, or one of the refusals 1 to 4 and 9.
pub(crate) fn single_search(
    method: Method,
    call: BlockCall,
    cur: &[u8],
    reference: &[u8],
    mv: MotionVector,
    weight: u32,
) -> Result<MotionSearchResult, Refusal>
    requires { call.refined ≡ 0 }
    ensures { found_from result ≡ search_answer method call.width call.height call.level call.bx call.by cur.now reference.now mv weight }
{
    let p = open(call, cur, reference, weight)?;
    if !p.block.range.holds(mv) {
        return Err(Refusal::Vector);
    }
    let start = MotionSearchResult::measured(&p, mv);
    Ok(search_by(method, &p, start))
}
