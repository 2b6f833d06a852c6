ghost use Rattle.std.specs.Prelude.{◌≡◌, ◌*◌, ◌≤◌, ◌<◌, MatchResult};
ghost use Rattle.grid.specs.Grid.{grid_of};
ghost use Rattle.compare.specs.Answer.{compare_refusal, compare_answer, next_answer};

use crate::cells::{count_differing, next_differing};
use grid::lent::GridRef;
use gridfile::read::Shape;
use refusal::kinds::Refusal;

// A number of document 02, how many places differ from a cell on, and the first of them: the C interface, so that 0 stands for
// no refusal.
#[repr(C)]
#[derive(Clone, Copy, Debug, PartialEq, Eq)]
pub struct Comparison {
    pub code: u32,
    pub count: u64,
    pub first: u64,
}

// The same number, and the first place that differs from a cell on.
#[repr(C)]
#[derive(Clone, Copy, Debug, PartialEq, Eq)]
pub struct Place {
    pub code: u32,
    pub place: u64,
}

// The cells that both grids have, or what the two files were refused with, then refusals 14 and 13. A refusal is a number, since a
// caller in C can pass a shape with any.
pub fn cells_of_both(
    first: Shape,
    first_room: usize,
    second: Shape,
    second_room: usize,
) -> Result<usize, u32>
    ensures { MatchResult result (λ cells. (compare_refusal first first_room second second_room ≡ 0) × (cells ≡ first.columns * first.rows) × (cells ≤ first_room) × (cells ≤ second_room)) (λ code. (code ≡ compare_refusal first first_room second second_room) × (0 < code)) }
{
    if first.code != 0 {
        return Err(first.code);
    }
    if second.code != 0 {
        return Err(second.code);
    }
    if first.columns != second.columns || first.rows != second.rows {
        return Err(Refusal::Shapes.number());
    }
    let cells = (first.columns as usize) * (first.rows as usize);
    if first_room.min(second_room) < cells {
        return Err(Refusal::Room.number());
    }
    Ok(cells)
}

pub fn lockdapple_grids_compare(
    first: Shape,
    first_rows: &[i16],
    first_cols: &[i16],
    first_sads: &[u32],
    second: Shape,
    second_rows: &[i16],
    second_cols: &[i16],
    second_sads: &[u32],
    from: usize,
) -> Comparison
    ensures { result ≡ compare_answer first (grid_of first_rows.now first_cols.now first_sads.now) second (grid_of second_rows.now second_cols.now second_sads.now) from }
{
    let f = GridRef {
        rows: first_rows,
        cols: first_cols,
        sads: first_sads,
    };
    let g = GridRef {
        rows: second_rows,
        cols: second_cols,
        sads: second_sads,
    };
    match cells_of_both(first, f.room(), second, g.room()) {
        Err(code) => Comparison {
            code,
            count: 0,
            first: 0,
        },
        Ok(cells) => {
            let next = next_differing(&f, &g, from, cells).unwrap_or(cells);
            // Nothing before it differs.
            let count = count_differing(&f, &g, next, cells);
            Comparison {
                code: 0,
                count: count as u64,
                first: next as u64,
            }
        }
    }
}

// Goes through the places one by one: a call behind each place sees no cell twice.
pub fn lockdapple_grids_next(
    first: Shape,
    first_rows: &[i16],
    first_cols: &[i16],
    first_sads: &[u32],
    second: Shape,
    second_rows: &[i16],
    second_cols: &[i16],
    second_sads: &[u32],
    from: usize,
) -> Place
    ensures { result ≡ next_answer first (grid_of first_rows.now first_cols.now first_sads.now) second (grid_of second_rows.now second_cols.now second_sads.now) from }
{
    let f = GridRef {
        rows: first_rows,
        cols: first_cols,
        sads: first_sads,
    };
    let g = GridRef {
        rows: second_rows,
        cols: second_cols,
        sads: second_sads,
    };
    match cells_of_both(first, f.room(), second, g.room()) {
        Err(code) => Place { code, place: 0 },
        Ok(cells) => {
            let place = next_differing(&f, &g, from, cells).unwrap_or(cells);
            Place {
                code: 0,
                place: place as u64,
            }
        }
    }
}
