ghost use Rattle.std.specs.Prelude.{◌≡◌, ℕ, ◌≤◌, ◌<◌, ◌^◌, ◌≤ℤ◌, length, IfSome, All, get_or};
ghost use Rattle.std.specs.Option.{option_to_list};
ghost use Rattle.motion.specs.Vector.{zero_v};
ghost use Rattle.motion.specs.Level.{level_of};
ghost use Rattle.motion.specs.Frame.{Placed};
ghost use Rattle.grid.specs.Grid.{Held};
ghost use Rattle.grid.specs.Previous.{Previous, HeldIf};
ghost use Rattle.grid.specs.Lent.{lent, previous_lent, SamePrevious};
ghost use Rattle.sampled.specs.Slots.{slots};
ghost use Rattle.predict.specs.Predictors.{predictor, predictors_at, sads_at, least_of, minimum_sad, stop_threshold, subset_of, subsets_of};

use grid::cells::MEStats;
use grid::lent::GridRef;
use motion::block::block_of;
use motion::level::level_of;
use motion::range::MvRange;
use motion::vector::MotionVector;
use sampled::cells::Spot;

const ZERO: MotionVector = MotionVector { row: 0, col: 0 };

// The predictors that some cells give, at most five, and the least SAD among the cells. An array and a count, as the
// definition `subset_of` has it.
#[derive(Clone, Copy, Debug, PartialEq, Eq)]
pub struct Subset {
    pub count: usize,
    pub mvs: [MotionVector; 5],
    pub least: u32,
}

// The predictors of a block. Slots past a count hold the zero vector; at level 4 the centre is the zero vector.
// Two arrays with their counts: document 01 names them, the definition `subsets_of` builds them, and C gets them.
#[derive(Clone, Copy, Debug, PartialEq, Eq)]
pub struct MotionEstimationSubsets {
    pub min_sad: u32,
    pub threshold: u32,
    pub center: MotionVector,
    pub b_count: usize,
    pub c_count: usize,
    pub subset_b: [MotionVector; 5],
    pub subset_c: [MotionVector; 5],
}

// How a block's predictors are made of stored vectors: by its range and its level's shift.
#[derive(Clone, Copy, Debug, PartialEq, Eq)]
struct Scale {
    range: MvRange,
    ssdec: u32,
    ghost ordered: { (range.mvx_min ≤ℤ range.mvx_max) × (range.mvy_min ≤ℤ range.mvy_max) },
    ghost small: { ssdec < 16 },
}

impl Scale {
    // A stored vector as a predictor.
    fn process_cand(self, stored: MotionVector) -> MotionVector
        ensures { result ≡ predictor self.range self.ssdec stored }
    {
        let mv = stored.quantize_to_fullpel();
        let row = mv.row.clamp(self.range.mvy_min, self.range.mvy_max);
        let col = mv.col.clamp(self.range.mvx_min, self.range.mvx_max);
        MotionVector { row, col } >> self.ssdec
    }

    // The predictors of some cells.
    fn subset_of(self, cells: &[usize], grid: &GridRef<'_>) -> Subset
        requires few { length cells.now ≤ slots }
        requires inside { All (λ i. (i < length grid.now.rows.now) × (i < length grid.now.cols.now) × (i < length grid.now.sads.now)) cells.now }
        ensures { result ≡ subset_of self.range self.ssdec (lent grid.now) cells.now }
    {
        let mut mvs = [ZERO; 5];
        let mut least = u32::MAX;
        for (k, &cell) in cells.iter().enumerate() {
            let stats = grid.stats_at(cell);
            mvs[k] = self.process_cand(stats.mv);
            least = least.min(stats.normalized_sad);
        }
        Subset {
            count: cells.len(),
            mvs,
            least,
        }
    }

    // The centre as a predictor, with its SAD; with no centre, the zero vector and the largest SAD.
    #[tactic(auto, unfolding(crate::specs::Predictors::predictors_at, crate::specs::Predictors::sads_at, crate::specs::Predictors::least_of))]
    fn centre_of(self, centre: Option<usize>, grid: &GridRef<'_>) -> MEStats
        requires { IfSome centre (λ i. (i < length grid.now.rows.now) × (i < length grid.now.cols.now) × (i < length grid.now.sads.now)) }
        ensures mv { result.mv ≡ get_or (predictors_at self.range self.ssdec (lent grid.now) (option_to_list centre)) 0 zero_v }
        ensures sad { result.normalized_sad ≡ least_of (sads_at (lent grid.now) (option_to_list centre)) }
    {
        match centre {
            Some(cell) => {
                let stats = grid.stats_at(cell);
                MEStats {
                    mv: self.process_cand(stats.mv),
                    normalized_sad: stats.normalized_sad,
                }
            }
            None => MEStats {
                mv: ZERO,
                normalized_sad: u32::MAX,
            },
        }
    }
}

// The least SAD, for a block of this many samples.
#[tactic(auto, unfolding(crate::specs::Predictors::minimum_sad))]
fn minimum_sad(least: u32, area: u32) -> u32
    requires { area ≤ 4096 }
    ensures { result ≡ minimum_sad least area }
{
    ((u64::from(least) * u64::from(area)) >> 14) as u32
}

// A search stops below this SAD.
#[tactic(auto, unfolding(crate::specs::Predictors::stop_threshold))]
fn stop_threshold(min_sad: u32, area: u32) -> u32
    requires { (min_sad ≤ 2 ^ 30) × (area ≤ 4096) }
    ensures { result ≡ stop_threshold min_sad area }
{
    (u64::from(min_sad) * 6 / 5) as u32 + area
}

// Whatever stands for an absent previous grid, the predictors are the same: clause `same_previous`.
// Width and height stay two numbers, as the definitions and C have them.
pub fn get_subset_predictors(
    width: usize,
    height: usize,
    level: usize,
    bx: usize,
    by: usize,
    prev: Option<GridRef<'_>>,
    grid: &GridRef<'_>,
) -> MotionEstimationSubsets
    requires placed { Placed width height (level_of level) (level_of level).mv_size bx by }
    requires prev_held { HeldIf width height (previous_lent prev) }
    requires held { Held width height (lent grid.now) }
    ensures subsets { result ≡ subsets_of width height level bx by (previous_lent prev.entry).present (previous_lent prev.entry).grid (lent grid.now) }
    ensures same_previous { (p : Previous) → SamePrevious (previous_lent prev.entry) p → result ≡ subsets_of width height level bx by p.present p.grid (lent grid.now) }
{
    let row = level_of(level);
    let mv_size = row.mv_size;
    let block = block_of(width, height, row, mv_size, bx, by);
    let scale = Scale {
        range: block.range,
        ssdec: row.ssdec,
    };
    let spot = Spot {
        width,
        height,
        mv_size,
        bx,
        by,
    };
    let b = scale.subset_of(spot.cells_b(level).as_slice(), grid);
    let c = match prev {
        Some(prev) => scale.subset_of(spot.cells_c(true).as_slice(), &prev),
        None => Subset {
            count: 0,
            mvs: [ZERO; 5],
            least: u32::MAX,
        },
    };
    // After B and C: before them it costs a flat frame 1 % more instructions.
    let centre = (level != 4).then_some(spot.centre_cell());
    let m = scale.centre_of(centre, grid);
    let area = (block.w * block.h) as u32;
    let min_sad = minimum_sad(b.least.min(c.least.min(m.normalized_sad)), area);
    // Variables, as the check of borrows doesn't cover an array's field that goes straight into a literal.
    let subset_b = b.mvs;
    let subset_c = c.mvs;
    MotionEstimationSubsets {
        min_sad,
        threshold: stop_threshold(min_sad, area),
        center: m.mv,
        b_count: b.count + 1,
        c_count: c.count,
        subset_b,
        subset_c,
    }
}
