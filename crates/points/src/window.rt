ghost use Rattle.std.specs.Prelude.{◌≡◌, ◌≤◌, ◌<◌, pos};
ghost use Rattle.std.specs.Int.Signed.{mag, quot_z};
ghost use Rattle.points.specs.Window.{span_count, span_at, refine_span, refine_window, window_ok};
ghost use Rattle.points.specs.Asked.{Spanned};

use motion::limits::EIGHTHS;
use motion::range::MvRange;
use motion::vector::MotionVector;

// So many whole pixels of one axis, from the first.
// No range, since the definitions count; and no ghost field, since their `refine_span` makes one of any numbers.
#[derive(Clone, Copy, PartialEq, Eq, Debug)]
pub struct Span {
    pub lo: i16,
    pub count: usize,
}

// The offsets that a full search tries.
#[derive(Clone, Copy, PartialEq, Eq, Debug)]
pub struct Window {
    pub rows: Span,
    pub cols: Span,
}

impl Window {
    // Whether there is anything to search.
    #[tactic(auto, unfolding(crate::specs::Window::window_ok))]
    pub fn ok(self) -> bool
        ensures { result ≡ window_ok self }
    {
        0 < self.rows.count && 0 < self.cols.count
    }
}

fn eighth(component: i16) -> i16
    ensures { result ≡ quot_z component (pos 8) }
{
    component / EIGHTHS
}

fn span_count(lo: i16, hi: i16) -> usize
    requires { (mag lo ≤ 8192) × (mag hi ≤ 8192) }
    ensures { result ≡ span_count lo hi }
{
    (hi - lo + 1).max(0) as usize
}

// The window of a refinement on one axis, round a stored component.
fn refine_span(min: i16, max: i16, stored: i16, ssdec: u32) -> Span
    requires { ssdec < 16 }
    ensures { result ≡ refine_span min max stored ssdec }
{
    let m = eighth(stored >> ssdec);
    let lo = eighth(min).max(m - 1);
    let hi = eighth(max).min(m + 2);
    Span {
        lo,
        count: span_count(lo, hi),
    }
}

// The window of a refinement, round a stored vector.
#[tactic(auto, using(std::proofs::lemmas::Int::ints), unfolding(crate::specs::Window::refine_window))]
pub fn refine_window(range: MvRange, stored: MotionVector, ssdec: u32) -> Window
    requires { ssdec < 16 }
    ensures { result ≡ refine_window range stored ssdec }
{
    Window {
        rows: refine_span(range.mvy_min, range.mvy_max, stored.row, ssdec),
        cols: refine_span(range.mvx_min, range.mvx_max, stored.col, ssdec),
    }
}

// Offset k of a span, in eighths.
#[tactic(auto, using(std::proofs::lemmas::Int::ints), unfolding(crate::specs::Window::span_at))]
pub fn span_at(lo: i16, k: usize) -> i16
    requires { Spanned lo k }
    ensures { result ≡ span_at lo k }
{
    EIGHTHS * (lo + k as i16)
}
