// The entry points on two grids for C.
#![tactic(auto)]

ghost use Rattle.std.specs.Prelude.{◌≡◌};
ghost use Rattle.grid.specs.Grid.{grid_of};
ghost use Rattle.compare.specs.Answer.{compare_answer, next_answer};

use compare::calls::{Comparison, Place};
use gridfile::read::Shape;

#[unsafe(no_mangle)]
pub extern "C" fn lockdapple_grids_compare(
    first: Shape,
    first_rows: &[i16],
    first_cols: &[i16],
    first_sads: &[u32],
    second: Shape,
    second_rows: &[i16],
    second_cols: &[i16],
    second_sads: &[u32],
    from: usize,
) -> Comparison
    ensures { result ≡ compare_answer first (grid_of first_rows.now first_cols.now first_sads.now) second (grid_of second_rows.now second_cols.now second_sads.now) from }
{
    compare::calls::lockdapple_grids_compare(
        first,
        first_rows,
        first_cols,
        first_sads,
        second,
        second_rows,
        second_cols,
        second_sads,
        from,
    )
}

#[unsafe(no_mangle)]
pub extern "C" fn lockdapple_grids_next(
    first: Shape,
    first_rows: &[i16],
    first_cols: &[i16],
    first_sads: &[u32],
    second: Shape,
    second_rows: &[i16],
    second_cols: &[i16],
    second_sads: &[u32],
    from: usize,
) -> Place
    ensures { result ≡ next_answer first (grid_of first_rows.now first_cols.now first_sads.now) second (grid_of second_rows.now second_cols.now second_sads.now) from }
{
    compare::calls::lockdapple_grids_next(
        first,
        first_rows,
        first_cols,
        first_sads,
        second,
        second_rows,
        second_cols,
        second_sads,
        from,
    )
}
