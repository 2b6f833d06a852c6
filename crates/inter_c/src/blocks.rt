ghost use Rattle.std.specs.Prelude.{◌≡◌};
ghost use Rattle.grid.specs.Grid.{grid_of};
ghost use Rattle.motion.specs.Rate.{rate_v};
ghost use Rattle.single.specs.Leaves.{range_answer, candidate_answer};
ghost use Rattle.single.specs.Predicting.{predictors_answer};
ghost use Rattle.searches.specs.Searches.{search_answer};
ghost use Rattle.searches.specs.Refinement.{refine_answer};

use searches::searches::Method;
use single::found::Found;
use single::predicting::Predictors;
use single::range::Range;

#[unsafe(no_mangle)]
pub extern "C" fn lockdapple_rate(row: i16, col: i16) -> u32
    ensures { result ≡ rate_v (record { row = row; col = col }) }
{
    single::calls::lockdapple_rate(row, col)
}

#[unsafe(no_mangle)]
pub extern "C" fn lockdapple_range(
    width: usize,
    height: usize,
    level: usize,
    refined: usize,
    bx: usize,
    by: usize,
) -> Range
    ensures { result ≡ range_answer width height level refined bx by }
{
    single::calls::lockdapple_range(width, height, level, refined, bx, by)
}

#[unsafe(no_mangle)]
pub extern "C" fn lockdapple_candidate(
    width: usize,
    height: usize,
    level: usize,
    refined: usize,
    bx: usize,
    by: usize,
    cur: &[u8],
    reference: &[u8],
    row: i16,
    col: i16,
    weight: u32,
) -> Found
    ensures { result ≡ candidate_answer width height level refined bx by cur.now reference.now (record { row = row; col = col }) weight }
{
    single::calls::lockdapple_candidate(
        width, height, level, refined, bx, by, cur, reference, row, col, weight,
    )
}

#[unsafe(no_mangle)]
pub extern "C" fn lockdapple_predictors(
    width: usize,
    height: usize,
    level: usize,
    bx: usize,
    by: usize,
    present: usize,
    prev_rows: &[i16],
    prev_cols: &[i16],
    prev_sads: &[u32],
    rows: &[i16],
    cols: &[i16],
    sads: &[u32],
) -> Predictors
    ensures { result ≡ predictors_answer width height level bx by present (grid_of prev_rows.now prev_cols.now prev_sads.now) (grid_of rows.now cols.now sads.now) }
{
    single::calls::lockdapple_predictors(
        width, height, level, bx, by, present, prev_rows, prev_cols, prev_sads, rows, cols, sads,
    )
}

#[unsafe(no_mangle)]
pub extern "C" fn lockdapple_diamond(
    width: usize,
    height: usize,
    level: usize,
    bx: usize,
    by: usize,
    cur: &[u8],
    reference: &[u8],
    row: i16,
    col: i16,
    weight: u32,
) -> Found
    ensures { result ≡ search_answer Method.Diamond width height level bx by cur.now reference.now (record { row = row; col = col }) weight }
{
    searches::calls::lockdapple_diamond(
        width, height, level, bx, by, cur, reference, row, col, weight,
    )
}

#[unsafe(no_mangle)]
pub extern "C" fn lockdapple_hexagon(
    width: usize,
    height: usize,
    level: usize,
    bx: usize,
    by: usize,
    cur: &[u8],
    reference: &[u8],
    row: i16,
    col: i16,
    weight: u32,
) -> Found
    ensures { result ≡ search_answer Method.Hexagon width height level bx by cur.now reference.now (record { row = row; col = col }) weight }
{
    searches::calls::lockdapple_hexagon(
        width, height, level, bx, by, cur, reference, row, col, weight,
    )
}

#[unsafe(no_mangle)]
pub extern "C" fn lockdapple_multi_hexagon(
    width: usize,
    height: usize,
    level: usize,
    bx: usize,
    by: usize,
    cur: &[u8],
    reference: &[u8],
    row: i16,
    col: i16,
    weight: u32,
) -> Found
    ensures { result ≡ search_answer Method.MultiHexagon width height level bx by cur.now reference.now (record { row = row; col = col }) weight }
{
    searches::calls::lockdapple_multi_hexagon(
        width, height, level, bx, by, cur, reference, row, col, weight,
    )
}

#[unsafe(no_mangle)]
pub extern "C" fn lockdapple_refine(
    width: usize,
    height: usize,
    level: usize,
    bx: usize,
    by: usize,
    cur: &[u8],
    reference: &[u8],
    rows: &[i16],
    cols: &[i16],
    sads: &[u32],
    weight: u32,
) -> Found
    ensures { result ≡ refine_answer width height level bx by cur.now reference.now (grid_of rows.now cols.now sads.now) weight }
{
    searches::calls::lockdapple_refine(
        width, height, level, bx, by, cur, reference, rows, cols, sads, weight,
    )
}
