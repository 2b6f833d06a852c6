ghost use Rattle.std.specs.Prelude.{◌≡◌, true, ℕ, ◌<◌, length, get_or};
ghost use Rattle.motion.specs.Frame.{Side};
ghost use Rattle.motion.specs.Superblock.{superblocks};
ghost use Rattle.grid.specs.Grid.{Held};
ghost use Rattle.grid.specs.Previous.{Previous, HeldIf};
ghost use Rattle.grid.specs.Lent.{lent_mut, previous_lent, SamePrevious, SameBuffers};
ghost use Rattle.refusal.specs.Refusals.{level_ok};
ghost use Rattle.estimate.specs.Inputs.{plane_at};
ghost use Rattle.estimate.specs.Lent.{inputs_lent, planes_lent};
ghost use Rattle.estimate.specs.Asked.{PlaneHeld};
ghost use Rattle.frame.specs.Run.{level_run, inputs_at, frame_run};

use estimate::inputs::LevelInputs;
use estimate::planes::FramePlanes;
use grid::lent::{GridMut, GridRef};
use superblock::step::superblock_step;

// Every superblock of a list at one level, in list order; one with an empty window leaves the grid as it stood.
fn level_run(
    inputs: &LevelInputs<'_>,
    prev: Option<GridRef<'_>>,
    list: &[u16],
    grid: &mut GridMut<'_>,
)
    requires held_if { HeldIf inputs.now.width inputs.now.height (previous_lent prev) }
    requires held { Held inputs.now.width inputs.now.height (lent_mut grid.old) }
    requires in_frame { (k : ℕ) → k < length list.now → get_or list.now k 0 < superblocks inputs.now.width inputs.now.height }
    ensures run { lent_mut grid.new ≡ level_run (inputs_lent inputs.now) (previous_lent prev.entry) list.now (lent_mut grid.old) }
    ensures same { SameBuffers grid.old grid.new }
{
    for &superblock in list {
        let _ = superblock_step(inputs, superblock as usize, prev, grid);
    }
}

// What a level of a run works with.
fn inputs_at<'a>(
    width: usize,
    height: usize,
    weight: u32,
    cur: &FramePlanes<'a>,
    reference: &FramePlanes<'a>,
    level: usize,
) -> LevelInputs<'a>
    requires side { Side width × Side height × (level_ok level 0 ≡ true) }
    requires held { PlaneHeld width height level (plane_at (planes_lent cur.now) level) × PlaneHeld width height level (plane_at (planes_lent reference.now) level) }
    ensures { inputs_lent result ≡ inputs_at width height (planes_lent cur.now) (planes_lent reference.now) weight level }
{
    LevelInputs {
        width,
        height,
        level,
        cur: cur.at(level),
        reference: reference.at(level),
        weight,
    }
}

// Levels 4, 3 and 2, each in list order.
// Whatever stands for an absent previous grid, the grid comes out the same: clause `same_previous`.
// Width and height stay two numbers, as the definitions and C have them.
pub fn frame_run(
    width: usize,
    height: usize,
    weight: u32,
    cur: &FramePlanes<'_>,
    reference: &FramePlanes<'_>,
    prev: Option<GridRef<'_>>,
    list: &[u16],
    grid: &mut GridMut<'_>,
)
    requires side { Side width × Side height }
    requires cur_held { PlaneHeld width height 2 cur.now.full.now × PlaneHeld width height 3 cur.now.half.now × PlaneHeld width height 4 cur.now.quarter.now }
    requires reference_held { PlaneHeld width height 2 reference.now.full.now × PlaneHeld width height 3 reference.now.half.now × PlaneHeld width height 4 reference.now.quarter.now }
    requires held_if { HeldIf width height (previous_lent prev) }
    requires held { Held width height (lent_mut grid.old) }
    requires in_frame { (k : ℕ) → k < length list.now → get_or list.now k 0 < superblocks width height }
    ensures run { lent_mut grid.new ≡ frame_run width height (planes_lent cur.now) (planes_lent reference.now) weight (previous_lent prev.entry) list.now (lent_mut grid.old) }
    ensures same_previous { (p : Previous) → SamePrevious (previous_lent prev.entry) p → lent_mut grid.new ≡ frame_run width height (planes_lent cur.now) (planes_lent reference.now) weight p list.now (lent_mut grid.old) }
    ensures same { SameBuffers grid.old grid.new }
{
    let quarter = inputs_at(width, height, weight, cur, reference, 4);
    level_run(&quarter, prev, list, grid);
    let half = inputs_at(width, height, weight, cur, reference, 3);
    level_run(&half, prev, list, grid);
    let full = inputs_at(width, height, weight, cur, reference, 2);
    level_run(&full, prev, list, grid);
}
