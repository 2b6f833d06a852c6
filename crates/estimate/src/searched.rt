ghost use Rattle.std.specs.Prelude.{◌≡◌, true, length};
ghost use Rattle.motion.specs.Vector.{zero_v};
ghost use Rattle.motion.specs.Range.{in_range};
ghost use Rattle.sad.specs.Planes.{rd_in};
ghost use Rattle.search.specs.Result.{try_one};
ghost use Rattle.estimate.specs.Asked.{Listed, Honest};
ghost use Rattle.estimate.specs.Block.{try_mvs, short_search, try_cands, extensive_search, full_pixel_me};

use motion::vector::MotionVector;
use predict::predictors::MotionEstimationSubsets;
use sad::planes::BlockPlanes;
use search::diamond::fullpel_diamond_search;
use search::multi_hex::uneven_multi_hex_search;
use search::result::MotionSearchResult;

// A block that is searched from its predictors: the zero vector, with which a search begins, is in its range.
#[derive(Clone, Copy)]
pub(crate) struct SearchedBlock<'a> {
    pub(crate) planes: BlockPlanes<'a>,
    ghost zero_in_range: { in_range planes.block.range zero_v ≡ true },
}

// By value: behind references, which keep a block and its predictors in memory, a flat frame has 1.4 % more instructions.
impl SearchedBlock<'_> {
    // Tries a vector, unless the best so far is that vector's already: it can't be cheaper than itself.
    fn try_unless_best(self, best: MotionSearchResult, mv: MotionVector) -> MotionSearchResult
        requires { Honest (rd_in self.planes) best }
        ensures { result ≡ try_one (rd_in self.entry.planes) best mv }
    {
        if best.mv == mv && best.rd.cost < u64::MAX {
            return best;
        }
        best.try_mv(&self.planes, mv)
    }

    // Tries vectors, in turn.
    fn try_mvs(self, current: MotionSearchResult, mvs: &[MotionVector]) -> MotionSearchResult
        requires { Honest (rd_in self.planes) current }
        ensures { result ≡ try_mvs (rd_in self.entry.planes) current mvs.now (length mvs.now) }
    {
        let mut best = current;
        for &mv in mvs {
            best = self.try_unless_best(best, mv);
        }
        best
    }

    // A list and diamond, from an empty best.
    fn try_cands(self, mvs: &[MotionVector]) -> MotionSearchResult
        ensures { result ≡ try_cands (rd_in self.entry.planes) mvs.now (length mvs.now) }
    {
        let best = self.try_mvs(MotionSearchResult::empty(), mvs);
        fullpel_diamond_search(&self.planes, best)
    }

    // Levels 3 and 2: the cheapest predictor, and diamond.
    fn short_search(self, p: MotionEstimationSubsets) -> MotionSearchResult
        requires { Listed p }
        ensures { result ≡ short_search (rd_in self.entry.planes) p }
    {
        let empty = MotionSearchResult::empty();
        let center = MotionSearchResult::measured(&self.planes, p.center);
        let middle = empty.move_to(center);
        let near = self.try_mvs(middle, &p.subset_b[..p.b_count]);
        let best = self.try_mvs(near, &p.subset_c[..p.c_count]);
        fullpel_diamond_search(&self.planes, best)
    }

    // Level 4: stops below the threshold.
    fn extensive_search(self, p: MotionEstimationSubsets) -> MotionSearchResult
        requires { Listed p }
        ensures { result ≡ extensive_search (rd_in self.entry.planes) p }
    {
        let near = self.try_cands(&p.subset_b[..p.b_count]);
        if near.rd.sad < p.threshold {
            return near;
        }
        let best = near.move_to(self.try_cands(&p.subset_c[..p.c_count]));
        if best.rd.sad < p.threshold {
            return best;
        }
        uneven_multi_hex_search(&self.planes, best)
    }

    // The search of a level.
    pub(crate) fn full_pixel_me(
        self,
        level: usize,
        p: MotionEstimationSubsets,
    ) -> MotionSearchResult
        requires { Listed p }
        ensures { result ≡ full_pixel_me (rd_in self.entry.planes) level p }
    {
        if level == 4 {
            self.extensive_search(p)
        } else {
            self.short_search(p)
        }
    }
}
