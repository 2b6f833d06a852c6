ghost use Rattle.std.specs.Prelude.{◌≡◌, true, ◌*◌, ◌≤◌, ◌<◌, length};
ghost use Rattle.motion.specs.Limits.{largest_side, largest_sample};
ghost use Rattle.motion.specs.Vector.{FitsV, shl_v};
ghost use Rattle.motion.specs.Level.{level_of};
ghost use Rattle.motion.specs.Frame.{Side, Starts, Sized};
ghost use Rattle.grid.specs.Grid.{Held, cells, cell_at};
ghost use Rattle.grid.specs.Previous.{Previous, HeldIf};
ghost use Rattle.grid.specs.Lent.{lent, previous_lent, SamePrevious};
ghost use Rattle.sad.specs.Asked.{Lies};
ghost use Rattle.points.specs.Window.{window_ok};
ghost use Rattle.estimate.specs.Asked.{Leveled, Samples};
ghost use Rattle.estimate.specs.Lent.{inputs_lent};
ghost use Rattle.estimate.specs.Block.{block_in, stats_of, estimate_motion, first_stored, window_at, refine_motion};

use crate::inputs::LevelInputs;
use crate::searched::SearchedBlock;
use grid::cells::{MEStats, cell_at};
use grid::lent::GridRef;
use motion::block::{Block, block_of};
use motion::level::level_of;
use motion::vector::MotionVector;
use points::window::{Window, refine_window};
use predict::predictors::get_subset_predictors;
use sad::planes::BlockPlanes;
use search::full::full_search;
use search::result::MotionSearchResult;

// A block with the planes in which it lies. Of a slice passed by itself, a proof knows that its samples are bytes.
fn lend<'a>(block: Block, cur: &'a [u8], reference: &'a [u8]) -> BlockPlanes<'a>
    requires { Lies block (length cur.now) × Lies block (length reference.now) }
    ensures lent { (result.block ≡ block) × (result.cur.now ≡ cur.now) × (result.reference.now ≡ reference.now) }
    ensures samples { Samples cur.now × Samples reference.now }
{
    BlockPlanes {
        block,
        cur,
        reference,
    }
}

// The block of a size at a cell, with the planes of its level. A cell is two numbers, as the definitions have it.
fn planes_at<'a>(inputs: &LevelInputs<'a>, mv_size: usize, bx: usize, by: usize) -> BlockPlanes<'a>
    requires sized { Sized (level_of inputs.now.level) mv_size }
    requires starts { Starts inputs.now.width mv_size bx × Starts inputs.now.height mv_size by }
    ensures block { result.block ≡ block_in (inputs_lent inputs.now) mv_size bx by }
    ensures planes { (result.cur.now ≡ inputs.now.cur.now) × (result.reference.now ≡ inputs.now.reference.now) }
    ensures samples { Samples inputs.now.cur.now × Samples inputs.now.reference.now }
{
    let row = level_of(inputs.level);
    let block = block_of(inputs.width, inputs.height, row, mv_size, bx, by);
    lend(block.weighed(inputs.weight), inputs.cur, inputs.reference)
}

// What is saved of a result: its vector at full size, its SAD as that of a block of 128 by 128.
fn stats_of(ssdec: u32, w: usize, h: usize, best: MotionSearchResult) -> MEStats
    requires ssdec_bound { (ssdec < 16) × FitsV (shl_v best.mv ssdec) }
    requires area_some { (0 < w) × (w ≤ 64) × (0 < h) × (h ≤ 64) }
    requires sad_most { best.rd.sad ≤ largest_sample * (w * h) }
    ensures { result ≡ stats_of ssdec w h best }
{
    let area = (w * h) as u64;
    MEStats {
        mv: best.mv << ssdec,
        normalized_sad: (((best.rd.sad as u64) << 14) / area) as u32,
    }
}

// The search of a block from its predictors. Whatever stands for an absent previous grid, it gives the same: clause `same_previous`.
pub fn estimate_motion(
    inputs: &LevelInputs<'_>,
    bx: usize,
    by: usize,
    prev: Option<GridRef<'_>>,
    grid: &GridRef<'_>,
) -> MEStats
    requires starts { Starts inputs.now.width (level_of inputs.now.level).mv_size bx × Starts inputs.now.height (level_of inputs.now.level).mv_size by }
    requires held_if { HeldIf inputs.now.width inputs.now.height (previous_lent prev) }
    requires held { Held inputs.now.width inputs.now.height (lent grid.now) }
    ensures estimated { result ≡ estimate_motion (inputs_lent inputs.now) (previous_lent prev.entry) bx by (lent grid.now) }
    ensures same_previous { (p : Previous) → SamePrevious (previous_lent prev.entry) p → result ≡ estimate_motion (inputs_lent inputs.now) p bx by (lent grid.now) }
{
    let row = level_of(inputs.level);
    let planes = planes_at(inputs, row.mv_size, bx, by);
    let p = get_subset_predictors(
        inputs.width,
        inputs.height,
        inputs.level,
        bx,
        by,
        prev,
        grid,
    );
    let best = SearchedBlock { planes }.full_pixel_me(inputs.level, p);
    stats_of(row.ssdec, planes.block.w, planes.block.h, best)
}

// The vector stored in a block's first cell.
fn first_stored(width: usize, bx: usize, by: usize, grid: &GridRef<'_>) -> MotionVector
    requires sides { (width ≤ largest_side) × (bx ≤ largest_side) × (by ≤ largest_side) }
    requires in_bounds { (cell_at width bx by < length grid.now.rows.now) × (cell_at width bx by < length grid.now.cols.now) }
    ensures { result ≡ first_stored width bx by grid.now.rows.now grid.now.cols.now }
{
    grid.stored_at(cell_at(width, bx, by))
}

// The window of a block's refinement, round the vector stored in its first cell.
// Width and height stay two numbers, as the definitions and C have them.
pub fn window_at(
    width: usize,
    height: usize,
    level: usize,
    bx: usize,
    by: usize,
    grid: &GridRef<'_>,
) -> Window
    requires side { Side width × Side height × Leveled level }
    requires starts { Starts width (level_of level).refined bx × Starts height (level_of level).refined by }
    requires in_bounds { (cells width height ≤ length grid.now.rows.now) × (cells width height ≤ length grid.now.cols.now) }
    ensures { result ≡ window_at width height level bx by grid.now.rows.now grid.now.cols.now }
{
    let row = level_of(level);
    let block = block_of(width, height, row, row.refined, bx, by);
    refine_window(block.range, first_stored(width, bx, by, grid), row.ssdec)
}

// The refinement of a block, whose window is not empty.
pub fn refine_motion(inputs: &LevelInputs<'_>, bx: usize, by: usize, grid: &GridRef<'_>) -> MEStats
    requires starts { Starts inputs.now.width (level_of inputs.now.level).refined bx × Starts inputs.now.height (level_of inputs.now.level).refined by }
    requires in_bounds { (cells inputs.now.width inputs.now.height ≤ length grid.now.rows.now) × (cells inputs.now.width inputs.now.height ≤ length grid.now.cols.now) }
    requires some_window { window_ok (window_at inputs.now.width inputs.now.height inputs.now.level bx by grid.now.rows.now grid.now.cols.now) ≡ true }
    ensures { result ≡ refine_motion (inputs_lent inputs.now) bx by grid.now.rows.now grid.now.cols.now }
{
    let row = level_of(inputs.level);
    let planes = planes_at(inputs, row.refined, bx, by);
    let stored = first_stored(inputs.width, bx, by, grid);
    let window = refine_window(planes.block.range, stored, row.ssdec);
    let best = full_search(&planes, window);
    stats_of(row.ssdec, planes.block.w, planes.block.h, best)
}
