ghost use Rattle.std.specs.Prelude.{◌≡◌};
ghost use Rattle.grid.specs.Grid.{grid_of};
ghost use Rattle.estimate.specs.Inputs.{plane_at, planes_of};
ghost use Rattle.steps.specs.Steps.{step_refusal, step_grid};

use crate::steps::step;
use estimate::planes::FramePlanes;
use grid::lent::{GridMut, previous};
use refusal::kinds::code_of;

pub fn lockdapple_superblock_step<'a>(
    width: usize,
    height: usize,
    level: usize,
    superblock: usize,
    cur: &'a [u8],
    cur_half: &'a [u8],
    cur_quarter: &'a [u8],
    reference: &'a [u8],
    ref_half: &'a [u8],
    ref_quarter: &'a [u8],
    present: usize,
    prev_rows: &[i16],
    prev_cols: &[i16],
    prev_sads: &[u32],
    rows: &mut [i16],
    cols: &mut [i16],
    sads: &mut [u32],
) -> u32
    ensures value { result ≡ step_refusal width height level superblock (plane_at (planes_of cur.now cur_half.now cur_quarter.now) level) (plane_at (planes_of reference.now ref_half.now ref_quarter.now) level) present (grid_of prev_rows.now prev_cols.now prev_sads.now) (grid_of rows.old cols.old sads.old) }
    ensures sads_value { grid_of rows.new cols.new sads.new ≡ step_grid width height level superblock (plane_at (planes_of cur.now cur_half.now cur_quarter.now) level) (plane_at (planes_of reference.now ref_half.now ref_quarter.now) level) present (grid_of prev_rows.now prev_cols.now prev_sads.now) 0 (grid_of rows.old cols.old sads.old) }
{
    let cur = FramePlanes {
        full: cur,
        half: cur_half,
        quarter: cur_quarter,
    };
    let reference = FramePlanes {
        full: reference,
        half: ref_half,
        quarter: ref_quarter,
    };
    let prev = previous(present, prev_rows, prev_cols, prev_sads);
    let mut grid = GridMut { rows, cols, sads };
    code_of(step(
        width,
        height,
        level,
        superblock,
        cur.at(level),
        reference.at(level),
        prev,
        &mut grid,
    ))
}
