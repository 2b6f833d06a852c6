ghost use Rattle.std.specs.Prelude.{◌≡◌};
ghost use Rattle.grid.specs.Grid.{grid_of};
ghost use Rattle.estimate.specs.Inputs.{planes_of};
ghost use Rattle.inter.specs.Runs.{run_refusal, run_grid};

use crate::runs::run;
use estimate::planes::FramePlanes;
use grid::lent::{GridMut, previous};
use refusal::kinds::code_of;

pub fn lockdapple_frame_run(
    width: usize,
    height: usize,
    cur: &[u8],
    cur_half: &[u8],
    cur_quarter: &[u8],
    reference: &[u8],
    ref_half: &[u8],
    ref_quarter: &[u8],
    present: usize,
    prev_rows: &[i16],
    prev_cols: &[i16],
    prev_sads: &[u32],
    list: &[u16],
    rows: &mut [i16],
    cols: &mut [i16],
    sads: &mut [u32],
) -> u32
    ensures value { result ≡ run_refusal width height (planes_of cur.now cur_half.now cur_quarter.now) (planes_of reference.now ref_half.now ref_quarter.now) present (grid_of prev_rows.now prev_cols.now prev_sads.now) list.now (grid_of rows.old cols.old sads.old) }
    ensures sads_value { grid_of rows.new cols.new sads.new ≡ run_grid width height (planes_of cur.now cur_half.now cur_quarter.now) (planes_of reference.now ref_half.now ref_quarter.now) present (grid_of prev_rows.now prev_cols.now prev_sads.now) 0 list.now (grid_of rows.old cols.old sads.old) }
{
    let cur = FramePlanes {
        full: cur,
        half: cur_half,
        quarter: cur_quarter,
    };
    let reference = FramePlanes {
        full: reference,
        half: ref_half,
        quarter: ref_quarter,
    };
    let prev = previous(present, prev_rows, prev_cols, prev_sads);
    let mut grid = GridMut { rows, cols, sads };
    code_of(run(width, height, &cur, &reference, prev, list, &mut grid))
}
