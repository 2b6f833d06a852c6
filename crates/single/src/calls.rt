ghost use Rattle.std.specs.Prelude.{◌≡◌};
ghost use Rattle.grid.specs.Grid.{grid_of};
ghost use Rattle.motion.specs.Rate.{rate_v};
ghost use Rattle.single.specs.Leaves.{range_answer, candidate_answer};
ghost use Rattle.single.specs.Predicting.{predictors_answer};

use crate::found::Found;
use crate::leaves::{candidate, range_of_block};
use crate::predicting::{Predictors, predictors_of_block};
use crate::range::Range;
use grid::lent::{GridRef, previous};
use motion::rate::get_mv_rate;
use motion::vector::MotionVector;
use refusal::refusals::BlockCall;

pub fn lockdapple_rate(row: i16, col: i16) -> u32
    ensures { result ≡ rate_v (record { row = row; col = col }) }
{
    get_mv_rate(MotionVector { row, col })
}

pub fn lockdapple_range(
    width: usize,
    height: usize,
    level: usize,
    refined: usize,
    bx: usize,
    by: usize,
) -> Range
    ensures { result ≡ range_answer width height level refined bx by }
{
    let call = BlockCall {
        width,
        height,
        level,
        refined,
        bx,
        by,
    };
    Range::from(range_of_block(call))
}

pub fn lockdapple_candidate(
    width: usize,
    height: usize,
    level: usize,
    refined: usize,
    bx: usize,
    by: usize,
    cur: &[u8],
    reference: &[u8],
    row: i16,
    col: i16,
    weight: u32,
) -> Found
    ensures { result ≡ candidate_answer width height level refined bx by cur.now reference.now (record { row = row; col = col }) weight }
{
    let call = BlockCall {
        width,
        height,
        level,
        refined,
        bx,
        by,
    };
    let mv = MotionVector { row, col };
    Found::from(candidate(call, cur, reference, mv, weight))
}

pub fn lockdapple_predictors(
    width: usize,
    height: usize,
    level: usize,
    bx: usize,
    by: usize,
    present: usize,
    prev_rows: &[i16],
    prev_cols: &[i16],
    prev_sads: &[u32],
    rows: &[i16],
    cols: &[i16],
    sads: &[u32],
) -> Predictors
    ensures { result ≡ predictors_answer width height level bx by present (grid_of prev_rows.now prev_cols.now prev_sads.now) (grid_of rows.now cols.now sads.now) }
{
    let prev = previous(present, prev_rows, prev_cols, prev_sads);
    let grid = GridRef { rows, cols, sads };
    Predictors::of(predictors_of_block(width, height, level, bx, by, prev, &grid))
}
