ghost use Rattle.std.specs.Prelude.{◌≡◌};
ghost use Rattle.grid.specs.Grid.{grid_of};
ghost use Rattle.estimate.specs.Inputs.{plane_at, planes_of};
ghost use Rattle.steps.specs.Steps.{step_refusal, step_grid};
ghost use Rattle.inter.specs.Runs.{run_refusal, run_grid};

#[unsafe(no_mangle)]
pub extern "C" fn lockdapple_superblock_step<'a>(
    width: usize,
    height: usize,
    level: usize,
    superblock: usize,
    cur: &'a [u8],
    cur_half: &'a [u8],
    cur_quarter: &'a [u8],
    reference: &'a [u8],
    ref_half: &'a [u8],
    ref_quarter: &'a [u8],
    present: usize,
    prev_rows: &[i16],
    prev_cols: &[i16],
    prev_sads: &[u32],
    rows: &mut [i16],
    cols: &mut [i16],
    sads: &mut [u32],
) -> u32
    ensures value { result ≡ step_refusal width height level superblock (plane_at (planes_of cur.now cur_half.now cur_quarter.now) level) (plane_at (planes_of reference.now ref_half.now ref_quarter.now) level) present (grid_of prev_rows.now prev_cols.now prev_sads.now) (grid_of rows.old cols.old sads.old) }
    ensures sads_value { grid_of rows.new cols.new sads.new ≡ step_grid width height level superblock (plane_at (planes_of cur.now cur_half.now cur_quarter.now) level) (plane_at (planes_of reference.now ref_half.now ref_quarter.now) level) present (grid_of prev_rows.now prev_cols.now prev_sads.now) 0 (grid_of rows.old cols.old sads.old) }
{
    steps::calls::lockdapple_superblock_step(
        width,
        height,
        level,
        superblock,
        cur,
        cur_half,
        cur_quarter,
        reference,
        ref_half,
        ref_quarter,
        present,
        prev_rows,
        prev_cols,
        prev_sads,
        rows,
        cols,
        sads,
    )
}

#[unsafe(no_mangle)]
pub extern "C" fn lockdapple_frame_run(
    width: usize,
    height: usize,
    cur: &[u8],
    cur_half: &[u8],
    cur_quarter: &[u8],
    reference: &[u8],
    ref_half: &[u8],
    ref_quarter: &[u8],
    present: usize,
    prev_rows: &[i16],
    prev_cols: &[i16],
    prev_sads: &[u32],
    list: &[u16],
    rows: &mut [i16],
    cols: &mut [i16],
    sads: &mut [u32],
) -> u32
    ensures value { result ≡ run_refusal width height (planes_of cur.now cur_half.now cur_quarter.now) (planes_of reference.now ref_half.now ref_quarter.now) present (grid_of prev_rows.now prev_cols.now prev_sads.now) list.now (grid_of rows.old cols.old sads.old) }
    ensures sads_value { grid_of rows.new cols.new sads.new ≡ run_grid width height (planes_of cur.now cur_half.now cur_quarter.now) (planes_of reference.now ref_half.now ref_quarter.now) present (grid_of prev_rows.now prev_cols.now prev_sads.now) 0 list.now (grid_of rows.old cols.old sads.old) }
{
    inter::calls::lockdapple_frame_run(
        width,
        height,
        cur,
        cur_half,
        cur_quarter,
        reference,
        ref_half,
        ref_quarter,
        present,
        prev_rows,
        prev_cols,
        prev_sads,
        list,
        rows,
        cols,
        sads,
    )
}
