ghost use Rattle.std.specs.Prelude.{◌≡◌};
ghost use Rattle.grid.specs.Grid.{grid_of};
ghost use Rattle.searches.specs.Searches.{search_answer};
ghost use Rattle.searches.specs.Refinement.{refine_answer};

use crate::refinement::refine;
use crate::searches::{Method, single_search};
use grid::lent::GridRef;
use motion::vector::MotionVector;
use refusal::refusals::BlockCall;
use single::found::Found;

pub fn lockdapple_diamond(
    width: usize,
    height: usize,
    level: usize,
    bx: usize,
    by: usize,
    cur: &[u8],
    reference: &[u8],
    row: i16,
    col: i16,
    weight: u32,
) -> Found
    ensures { result ≡ search_answer Method.Diamond width height level bx by cur.now reference.now (record { row = row; col = col }) weight }
{
    let call = BlockCall {
        width,
        height,
        level,
        refined: 0,
        bx,
        by,
    };
    let mv = MotionVector { row, col };
    Found::from(single_search(Method::Diamond, call, cur, reference, mv, weight))
}

pub fn lockdapple_hexagon(
    width: usize,
    height: usize,
    level: usize,
    bx: usize,
    by: usize,
    cur: &[u8],
    reference: &[u8],
    row: i16,
    col: i16,
    weight: u32,
) -> Found
    ensures { result ≡ search_answer Method.Hexagon width height level bx by cur.now reference.now (record { row = row; col = col }) weight }
{
    let call = BlockCall {
        width,
        height,
        level,
        refined: 0,
        bx,
        by,
    };
    let mv = MotionVector { row, col };
    Found::from(single_search(Method::Hexagon, call, cur, reference, mv, weight))
}

pub fn lockdapple_multi_hexagon(
    width: usize,
    height: usize,
    level: usize,
    bx: usize,
    by: usize,
    cur: &[u8],
    reference: &[u8],
    row: i16,
    col: i16,
    weight: u32,
) -> Found
    ensures { result ≡ search_answer Method.MultiHexagon width height level bx by cur.now reference.now (record { row = row; col = col }) weight }
{
    let call = BlockCall {
        width,
        height,
        level,
        refined: 0,
        bx,
        by,
    };
    let mv = MotionVector { row, col };
    Found::from(single_search(Method::MultiHexagon, call, cur, reference, mv, weight))
}

pub fn lockdapple_refine(
    width: usize,
    height: usize,
    level: usize,
    bx: usize,
    by: usize,
    cur: &[u8],
    reference: &[u8],
    rows: &[i16],
    cols: &[i16],
    sads: &[u32],
    weight: u32,
) -> Found
    ensures { result ≡ refine_answer width height level bx by cur.now reference.now (grid_of rows.now cols.now sads.now) weight }
{
    let call = BlockCall {
        width,
        height,
        level,
        refined: 1,
        bx,
        by,
    };
    let grid = GridRef { rows, cols, sads };
    Found::from(refine(call, cur, reference, &grid, weight))
}
