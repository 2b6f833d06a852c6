ghost use Rattle.std.specs.Prelude.{◌≤◌, ◌<◌, length};

use crate::columns::Call;
use crate::grids::{Grid, cell, cells};
use crate::planes::{HALF, QUARTER, from_plane};
use inter::calls::lockdapple_frame_run;
use single::found::Found;

// What the cells hold before a run, and after none.
const BEFORE: i16 = 32767;

// How many superblocks a frame has: at most three on a side. Not motion's `superblocks_of`, for the reason of `cell`.
fn superblocks(width: usize, height: usize) -> usize
    requires { (width ≤ 136) × (height ≤ 136) }
    ensures { result ≤ 9 }
{
    width.div_ceil(64) * height.div_ceil(64)
}

// The list's first superblocks, as many as the frame has: of a function of its own for the reason of `from_plane`.
fn listed(list: &[u16], width: usize, height: usize) -> &[u16]
    requires { (width ≤ 136) × (height ≤ 136) × (9 ≤ length list.now) }
{
    &list[..superblocks(width, height)]
}

// A run in raster order that follows these cells, and its number.
fn ran(call: Call, cur: &[u8], reference: &[u8], prev: &Grid, cells: &mut Grid) -> u32
    requires { (75728 ≤ length cur.now) × (75728 ≤ length reference.now) }
{
    let list = [0u16, 1, 2, 3, 4, 5, 6, 7, 8];
    lockdapple_frame_run(
        call.width,
        call.height,
        cur,
        from_plane(cur, HALF),
        from_plane(cur, QUARTER),
        reference,
        from_plane(reference, HALF),
        from_plane(reference, QUARTER),
        call.refined,
        &prev.rows,
        &prev.cols,
        &prev.sads,
        listed(&list, call.width, call.height),
        &mut cells.rows,
        &mut cells.cols,
        &mut cells.sads,
    )
}

// What a run leaves in the call's cell, and the sum over all cells as its cost.
pub(crate) fn on_frame(call: Call, cur: &[u8], reference: &[u8]) -> Found
    requires { (75728 ≤ length cur.now) × (75728 ≤ length reference.now) }
{
    let mut found = Grid::new(BEFORE);
    let code = ran(call, cur, reference, &Grid::previous(), &mut found);
    let at = cell(call.width, call.bx, call.by);
    Found {
        code,
        row: found.rows[at],
        col: found.cols[at],
        sad: found.sads[at],
        cost: found.sum(cells(call.width, call.height)) as u64,
    }
}
