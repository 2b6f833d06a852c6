ghost use Rattle.std.specs.Prelude.{◌≡◌, true, ◌≤◌, ◌<◌, cond, eqb, length};
ghost use Rattle.motion.specs.Superblock.{superblocks};
ghost use Rattle.grid.specs.Grid.{Held, cells};
ghost use Rattle.grid.specs.Previous.{Previous, HeldIf};
ghost use Rattle.grid.specs.Lent.{lent, lent_mut, previous_lent, SamePrevious, SameBuffers};
ghost use Rattle.refusal.specs.Kinds.{code_of};
ghost use Rattle.refusal.specs.Refusals.{refuse};
ghost use Rattle.estimate.specs.Lent.{inputs_lent};
ghost use Rattle.superblock.specs.Step.{block_count, windows_ok, refinements, estimates, step};

use crate::blocks::Blocks;
use estimate::block::{estimate_motion, refine_motion, window_at};
use estimate::inputs::LevelInputs;
use grid::lent::{GridMut, GridRef};
use motion::level::level_of;
use refusal::kinds::Refusal;

// How many of its blocks a level refines: level 4 none.
fn refined_count(level: usize, blocks: &Blocks) -> usize
    ensures { result ≡ cond (eqb level 4) 0 (block_count blocks.now.width blocks.now.height blocks.now.mv_size blocks.now.superblock) }
{
    if level == 4 { 0 } else { blocks.count() }
}

// Whether no refinement of a step has an empty window. As `(0..count).all(..)` it was tried, and the proof didn't close.
// The superblock stays beside what its level works with, which one run keeps for all superblocks of a list.
fn windows_ok(inputs: &LevelInputs<'_>, superblock: usize, grid: &GridRef<'_>) -> bool
    requires inside { superblock < superblocks inputs.now.width inputs.now.height }
    requires in_bounds { (cells inputs.now.width inputs.now.height ≤ length grid.now.rows.now) × (cells inputs.now.width inputs.now.height ≤ length grid.now.cols.now) }
    ensures { result ≡ windows_ok inputs.now.width inputs.now.height inputs.now.level superblock grid.now.rows.now grid.now.cols.now }
{
    let blocks = Blocks {
        width: inputs.width,
        height: inputs.height,
        mv_size: level_of(inputs.level).refined,
        superblock,
    };
    for k in 0..refined_count(inputs.level, &blocks) {
        let bx = blocks.x(k);
        let by = blocks.y(k);
        if !window_at(inputs.width, inputs.height, inputs.level, bx, by, grid).ok() {
            return false;
        }
    }
    true
}

// The refinements of a superblock, none of whose windows is empty.
fn refine_sb_motion(inputs: &LevelInputs<'_>, superblock: usize, grid: &mut GridMut<'_>)
    requires inside { superblock < superblocks inputs.now.width inputs.now.height }
    requires held { Held inputs.now.width inputs.now.height (lent_mut grid.old) }
    requires some_windows { windows_ok inputs.now.width inputs.now.height inputs.now.level superblock grid.old.rows.now grid.old.cols.now ≡ true }
    ensures refined { lent_mut grid.new ≡ refinements (inputs_lent inputs.now) superblock (lent_mut grid.old) }
    ensures same { SameBuffers grid.old grid.new }
{
    // The same blocks as in `windows_ok`: a function for them would have a clause for each bound and field, and be no shorter.
    let blocks = Blocks {
        width: inputs.width,
        height: inputs.height,
        mv_size: level_of(inputs.level).refined,
        superblock,
    };
    for k in 0..refined_count(inputs.level, &blocks) {
        let bx = blocks.x(k);
        let by = blocks.y(k);
        let stats = refine_motion(inputs, bx, by, &grid.read());
        grid.save_me_stats(inputs.width, inputs.height, blocks.mv_size, bx, by, stats);
    }
}

// The blocks of a superblock. One loop for these and the refinements would be no plainer: its closure would have to carry what a
// refinement asks of its window.
fn estimate_sb_motion(
    inputs: &LevelInputs<'_>,
    superblock: usize,
    prev: Option<GridRef<'_>>,
    grid: &mut GridMut<'_>,
)
    requires inside { superblock < superblocks inputs.now.width inputs.now.height }
    requires held_if { HeldIf inputs.now.width inputs.now.height (previous_lent prev) }
    requires held { Held inputs.now.width inputs.now.height (lent_mut grid.old) }
    ensures estimated { lent_mut grid.new ≡ estimates (inputs_lent inputs.now) (previous_lent prev.entry) superblock (lent_mut grid.old) }
    ensures same { SameBuffers grid.old grid.new }
{
    let blocks = Blocks {
        width: inputs.width,
        height: inputs.height,
        mv_size: level_of(inputs.level).mv_size,
        superblock,
    };
    for k in 0..blocks.count() {
        let bx = blocks.x(k);
        let by = blocks.y(k);
        let stats = estimate_motion(inputs, bx, by, prev, &grid.read());
        grid.save_me_stats(inputs.width, inputs.height, blocks.mv_size, bx, by, stats);
    }
}

// One superblock at one level. Where a window is empty the grid stays as it stood.
// Whatever stands for an absent previous grid, the grid comes out the same: clause `same_previous`.
// Both grids are held by clauses: one is written, so that no ghost field could speak of what it holds.
pub fn superblock_step(
    inputs: &LevelInputs<'_>,
    superblock: usize,
    prev: Option<GridRef<'_>>,
    grid: &mut GridMut<'_>,
) -> Result<(), Refusal>
    requires inside { superblock < superblocks inputs.now.width inputs.now.height }
    requires held_if { HeldIf inputs.now.width inputs.now.height (previous_lent prev) }
    requires held { Held inputs.now.width inputs.now.height (lent_mut grid.old) }
    ensures refusal { code_of result ≡ refuse 8 (windows_ok inputs.now.width inputs.now.height inputs.now.level superblock grid.old.rows.now grid.old.cols.now) }
    ensures stepped { lent_mut grid.new ≡ step (inputs_lent inputs.now) (previous_lent prev.entry) superblock (lent_mut grid.old) }
    ensures same_previous { (p : Previous) → SamePrevious (previous_lent prev.entry) p → lent_mut grid.new ≡ step (inputs_lent inputs.now) p superblock (lent_mut grid.old) }
    ensures same { SameBuffers grid.old grid.new }
{
    if !windows_ok(inputs, superblock, &grid.read()) {
        return Err(Refusal::Window);
    }
    refine_sb_motion(inputs, superblock, grid);
    estimate_sb_motion(inputs, superblock, prev, grid);
    Ok(())
}
