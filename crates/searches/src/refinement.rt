ghost use Rattle.std.specs.Prelude.{◌≡◌, ℕ, ◌<◌};
ghost use Rattle.grid.specs.Lent.{lent};
ghost use Rattle.points.specs.Asked.{Spanned};
ghost use Rattle.points.specs.Window.{refine_window};
ghost use Rattle.single.specs.Found.{found_from};
ghost use Rattle.searches.specs.Refinement.{window_answer, refine_answer};

use grid::cells::cell_at;
use grid::lent::GridRef;
use motion::level::level_of;
use motion::range::MvRange;
use motion::vector::MotionVector;
use points::window::{Window, refine_window};
use refusal::kinds::Refusal;
use refusal::refusals::{BlockCall, grid_ok};
use sad::planes::BlockPlanes;
use search::full::full_search;
use search::result::MotionSearchResult;
use single::call::open;

// The window of a refinement, whose offsets 16 bits hold. Of a function of its own, since a range behind a reference has no
// known ends.
fn window_at(range: MvRange, stored: MotionVector, ssdec: u32) -> Window
    requires { ssdec < 16 }
    ensures window { result ≡ refine_window range stored ssdec }
    ensures rows_spanned { (k : ℕ) → k < result.rows.count → Spanned result.rows.lo k }
    ensures cols_spanned { (k : ℕ) → k < result.cols.count → Spanned result.cols.lo k }
{
    refine_window(range, stored, ssdec)
}

// The search of the window, unless it is empty.
fn refine_block(
    p: &BlockPlanes<'_>,
    stored: MotionVector,
    ssdec: u32,
) -> Result<MotionSearchResult, Refusal>
    requires { ssdec < 16 }
    ensures { found_from result ≡ window_answer p.now.block p.now.cur.now p.now.reference.now stored ssdec }
{
    let window = window_at(p.block.range, stored, ssdec);
    if !window.ok() {
        return Err(Refusal::Window);
    }
    Ok(full_search(p, window))
}

// What a refinement round the stored vector finds, or one of the refusals 1 to 5 and 8.
pub(crate) fn refine(
    call: BlockCall,
    cur: &[u8],
    reference: &[u8],
    grid: &GridRef<'_>,
    weight: u32,
) -> Result<MotionSearchResult, Refusal>
    requires { call.refined ≡ 1 }
    ensures { found_from result ≡ refine_answer call.width call.height call.level call.bx call.by cur.now reference.now (lent grid.now) weight }
{
    let p = open(call, cur, reference, weight)?;
    if !grid_ok(call.width, call.height, grid.room()) {
        return Err(Refusal::Grid);
    }
    let stored = grid.stored_at(cell_at(call.width, call.bx, call.by));
    refine_block(&p, stored, level_of(call.level).ssdec)
}
