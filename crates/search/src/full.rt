ghost use Rattle.std.specs.Prelude.{◌≡◌, ℕ, ◌<◌};
ghost use Rattle.sad.specs.Planes.{rd_in};
ghost use Rattle.points.specs.Asked.{Spanned};
ghost use Rattle.search.specs.Full.{row_of, full_search};

use crate::result::MotionSearchResult;
use motion::vector::MotionVector;
use points::window::{Span, Window, span_at};
use sad::planes::BlockPlanes;

// One row of a window.
fn search_row(
    p: &BlockPlanes<'_>,
    row: i16,
    cols: Span,
    current: MotionSearchResult,
) -> MotionSearchResult
    requires { (k : ℕ) → k < cols.count → Spanned cols.lo k }
    ensures { result ≡ row_of (rd_in p.now) current row cols }
{
    let mut best = current;
    for k in 0..cols.count {
        let col = span_at(cols.lo, k);
        best = best.try_mv(p, MotionVector { row, col });
    }
    best
}

// A window in raster order, from an empty best.
pub fn full_search(p: &BlockPlanes<'_>, window: Window) -> MotionSearchResult
    requires rows_spanned { (k : ℕ) → k < window.rows.count → Spanned window.rows.lo k }
    requires cols_spanned { (k : ℕ) → k < window.cols.count → Spanned window.cols.lo k }
    ensures { result ≡ full_search (rd_in p.now) window }
{
    let mut best = MotionSearchResult::empty();
    for k in 0..window.rows.count {
        let row = span_at(window.rows.lo, k);
        best = search_row(p, row, window.cols, best);
    }
    best
}
