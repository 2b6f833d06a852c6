ghost use Rattle.std.specs.Prelude.{◌≡◌};
ghost use Rattle.grid.specs.Grid.{room};
ghost use Rattle.grid.specs.Lent.{lent_mut, previous_lent, SameBuffers};
ghost use Rattle.refusal.specs.Kinds.{code_of};
ghost use Rattle.refusal.specs.Present.{present_of};
ghost use Rattle.estimate.specs.Lent.{planes_lent};
ghost use Rattle.inter.specs.Runs.{lengths_of, run_tests, run_refusal, run_grid};

use estimate::planes::FramePlanes;
use frame::run::frame_run;
use grid::lent::{GridMut, GridRef};
use motion::superblocks::superblocks_along;
use order::list::list_test;
use refusal::kinds::Refusal;
use refusal::refusals::{grids_fit, planes_test, side_ok};

// The tests behind refusals 1, 4 and 5, in their order, with the grid's room.
// Width and height stay two numbers, as the definitions and C have them.
fn run_tests(
    width: usize,
    height: usize,
    cur: &FramePlanes<'_>,
    reference: &FramePlanes<'_>,
    prev: Option<GridRef<'_>>,
    cells: usize,
) -> Result<(), Refusal>
    ensures { code_of result ≡ run_tests width height (lengths_of (planes_lent cur.now)) (lengths_of (planes_lent reference.now)) (present_of (previous_lent prev.entry)) (room (previous_lent prev.entry).grid) cells }
{
    if !(side_ok(width) && side_ok(height)) {
        return Err(Refusal::Side);
    }
    planes_test(width, height, 4, cur.quarter.len(), reference.quarter.len())?;
    planes_test(width, height, 3, cur.half.len(), reference.half.len())?;
    planes_test(width, height, 2, cur.full.len(), reference.full.len())?;
    if !grids_fit(width, height, prev, cells) {
        return Err(Refusal::Grid);
    }
    Ok(())
}

// The levels of all superblocks of a frame, in the order of the list.
pub fn run(
    width: usize,
    height: usize,
    cur: &FramePlanes<'_>,
    reference: &FramePlanes<'_>,
    prev: Option<GridRef<'_>>,
    list: &[u16],
    grid: &mut GridMut<'_>,
) -> Result<(), Refusal>
    ensures refusal { code_of result ≡ run_refusal width height (planes_lent cur.now) (planes_lent reference.now) (present_of (previous_lent prev.entry)) (previous_lent prev.entry).grid list.now (lent_mut grid.old) }
    ensures left { lent_mut grid.new ≡ run_grid width height (planes_lent cur.now) (planes_lent reference.now) (present_of (previous_lent prev.entry)) (previous_lent prev.entry).grid 0 list.now (lent_mut grid.old) }
    ensures same { SameBuffers grid.old grid.new }
{
    let cells = grid.room();
    run_tests(width, height, cur, reference, prev, cells)?;
    list_test(superblocks_along(width), superblocks_along(height), list)?;
    frame_run(width, height, 0, cur, reference, prev, list, grid);
    Ok(())
}
