ghost use Rattle.std.specs.Prelude.{◌≡◌, ◌≤◌, IfOk, ℕ};
ghost use Rattle.grid.specs.Grid.{Grid};
ghost use Rattle.grid.specs.Previous.{previous};
ghost use Rattle.grid.specs.Lent.{lent, previous_lent, SamePrevious};
ghost use Rattle.sampled.specs.Slots.{slots};
ghost use Rattle.single.specs.Predicting.{predictors_from, predictors_answer};

use grid::lent::GridRef;
use motion::vector::MotionVector;
use predict::predictors::{MotionEstimationSubsets, get_subset_predictors};
use refusal::kinds::Refusal;
use refusal::refusals::{BlockCall, grids_fit};

// 0 or a refusal, and the predictors of a block. The C interface has it so.
#[repr(C)]
#[derive(Clone, Copy, Debug, PartialEq, Eq)]
pub struct Predictors {
    pub code: u32,
    pub min_sad: u32,
    pub threshold: u32,
    pub b_count: u32,
    pub c_count: u32,
    pub center: MotionVector,
    pub b: [MotionVector; 5],
    pub c: [MotionVector; 5],
}

impl Predictors {
    // An answer as C gets it; a refusal holds 0 in each field. No `From`, since the counts must fit.
    pub(crate) fn of(answer: Result<MotionEstimationSubsets, Refusal>) -> Predictors
        requires { IfOk answer (λ p. (p.b_count ≤ slots) × (p.c_count ≤ slots)) }
        ensures { result ≡ predictors_from answer }
    {
        match answer {
            Ok(p) => {
                // Variables, as the check of borrows doesn't cover an array's field that goes straight into a literal.
                let b = p.subset_b;
                let c = p.subset_c;
                Predictors {
                    code: 0,
                    min_sad: p.min_sad,
                    threshold: p.threshold,
                    b_count: p.b_count as u32,
                    c_count: p.c_count as u32,
                    center: p.center,
                    b,
                    c,
                }
            }
            Err(refusal) => {
                let zero = MotionVector { row: 0, col: 0 };
                Predictors {
                    code: refusal.number(),
                    min_sad: 0,
                    threshold: 0,
                    b_count: 0,
                    c_count: 0,
                    center: zero,
                    b: [zero; 5],
                    c: [zero; 5],
                }
            }
        }
    }
}

// The predictors of a block, from the grid as it stands and the previous one, or one of the refusals 1 to 3 and 5.
// No BlockCall: `refined` would say nothing here.
pub fn predictors_of_block(
    width: usize,
    height: usize,
    level: usize,
    bx: usize,
    by: usize,
    prev: Option<GridRef<'_>>,
    grid: &GridRef<'_>,
) -> Result<MotionEstimationSubsets, Refusal>
    ensures answer { (present : ℕ) (before : Grid) → SamePrevious (previous_lent prev.entry) (previous present before) → predictors_from result ≡ predictors_answer width height level bx by present before (lent grid.now) }
    ensures few { IfOk result (λ p. (p.b_count ≤ slots) × (p.c_count ≤ slots)) }
{
    let call = BlockCall {
        width,
        height,
        level,
        refined: 0,
        bx,
        by,
    };
    call.test()?;
    if !grids_fit(width, height, prev, grid.room()) {
        return Err(Refusal::Grid);
    }
    Ok(get_subset_predictors(width, height, level, bx, by, prev, grid))
}
