use crate::columns::{Call, Kind};
use crate::grids::{Grid, cell};
use searches::calls::{
    lockdapple_diamond, lockdapple_hexagon, lockdapple_multi_hexagon, lockdapple_refine,
};
use single::calls::lockdapple_candidate;
use single::found::Found;

// What the cells that no case stores hold: a refinement round it has an empty window.
const ELSEWHERE: i16 = 32767;

// The refinement round the call's vector, which alone is stored in the grid.
fn refined(call: Call, cur: &[u8], reference: &[u8]) -> Found {
    let at = cell(call.width, call.bx, call.by);
    let mut stored = Grid::new(ELSEWHERE);
    stored.rows[at] = call.row;
    stored.cols[at] = call.col;
    lockdapple_refine(
        call.width,
        call.height,
        call.level,
        call.bx,
        call.by,
        cur,
        reference,
        &stored.rows,
        &stored.cols,
        &stored.sads,
        call.weight,
    )
}

fn candidate(call: Call, cur: &[u8], reference: &[u8]) -> Found {
    lockdapple_candidate(
        call.width,
        call.height,
        call.level,
        call.refined,
        call.bx,
        call.by,
        cur,
        reference,
        call.row,
        call.col,
        call.weight,
    )
}

// What the proved code finds on a block, in planes of its level.
pub(crate) fn on_block(call: Call, cur: &[u8], reference: &[u8]) -> Found {
    let width = call.width;
    let height = call.height;
    let level = call.level;
    let bx = call.bx;
    let by = call.by;
    let row = call.row;
    let col = call.col;
    let weight = call.weight;
    match call.kind {
        Kind::Candidate => candidate(call, cur, reference),
        Kind::Diamond => lockdapple_diamond(
            width, height, level, bx, by, cur, reference, row, col, weight,
        ),
        Kind::Hexagon => lockdapple_hexagon(
            width, height, level, bx, by, cur, reference, row, col, weight,
        ),
        Kind::MultiHexagon => lockdapple_multi_hexagon(
            width, height, level, bx, by, cur, reference, row, col, weight,
        ),
        // A frame's call comes to `on_frame`.
        Kind::Refinement | Kind::Frame => refined(call, cur, reference),
    }
}
