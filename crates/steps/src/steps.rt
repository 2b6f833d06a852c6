ghost use Rattle.std.specs.Prelude.{◌≡◌};
ghost use Rattle.grid.specs.Grid.{room};
ghost use Rattle.grid.specs.Lent.{lent_mut, previous_lent, SameBuffers};
ghost use Rattle.refusal.specs.Kinds.{code_of};
ghost use Rattle.refusal.specs.Present.{present_of};
ghost use Rattle.steps.specs.Steps.{step_tests, step_refusal, step_grid};

use estimate::inputs::LevelInputs;
use grid::lent::{GridMut, GridRef};
use motion::superblocks::superblocks_of;
use refusal::kinds::Refusal;
use refusal::refusals::{grids_fit, level_ok, planes_test, side_ok};
use superblock::step::superblock_step;

// The tests behind refusals 1 to 5, in their order, of the lengths of the level's planes and of the grid's room.
// Width and height stay two numbers, as the definitions and C have them.
fn step_tests(
    width: usize,
    height: usize,
    level: usize,
    superblock: usize,
    cur: usize,
    reference: usize,
    prev: Option<GridRef<'_>>,
    cells: usize,
) -> Result<(), Refusal>
    ensures { code_of result ≡ step_tests width height level superblock cur reference (present_of (previous_lent prev.entry)) (room (previous_lent prev.entry).grid) cells }
{
    if !(side_ok(width) && side_ok(height)) {
        return Err(Refusal::Side);
    }
    if !level_ok(level, 0) {
        return Err(Refusal::Level);
    }
    if superblocks_of(width, height) <= superblock {
        return Err(Refusal::Start);
    }
    planes_test(width, height, level, cur, reference)?;
    if !grids_fit(width, height, prev, cells) {
        return Err(Refusal::Grid);
    }
    Ok(())
}

// One superblock at one level, by the level's planes.
pub fn step(
    width: usize,
    height: usize,
    level: usize,
    superblock: usize,
    cur: &[u8],
    reference: &[u8],
    prev: Option<GridRef<'_>>,
    grid: &mut GridMut<'_>,
) -> Result<(), Refusal>
    ensures refusal { code_of result ≡ step_refusal width height level superblock cur.now reference.now (present_of (previous_lent prev.entry)) (previous_lent prev.entry).grid (lent_mut grid.old) }
    ensures left { lent_mut grid.new ≡ step_grid width height level superblock cur.now reference.now (present_of (previous_lent prev.entry)) (previous_lent prev.entry).grid 0 (lent_mut grid.old) }
    ensures same { SameBuffers grid.old grid.new }
{
    let cells = grid.room();
    step_tests(
        width,
        height,
        level,
        superblock,
        cur.len(),
        reference.len(),
        prev,
        cells,
    )?;
    let inputs = LevelInputs {
        width,
        height,
        level,
        cur,
        reference,
        weight: 0,
    };
    superblock_step(&inputs, superblock, prev, grid)
}
