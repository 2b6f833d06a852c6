ghost use Rattle.std.specs.Prelude.{◌≡◌, ◌+◌, ◌*◌, ◌%◌, ◌≤◌, ◌<◌, min, length};
ghost use Rattle.motion.specs.Limits.{largest_sample};
ghost use Rattle.sad.specs.Sad.{abs_diff, sad_row, sad_block};
ghost use Rattle.sad.specs.Asked.{Inside, largest_block, largest_place};
ghost use Rattle.sad.specs.Pair.{rows_of, run_of, pair_sad};

use crate::pair::BlockPair;

// A difference of signed numbers, which the compiler knows for the processor's own sum of absolute differences: as
// `u8::abs_diff` a run takes 1.9 times the instructions.
fn abs_diff(p1: u8, p2: u8) -> u32
    ensures few { result ≤ largest_sample }
    ensures difference { result ≡ abs_diff p1 p2 }
{
    (i32::from(p1) - i32::from(p2)).unsigned_abs()
}

// A row of samples against as many.
fn sad_row(cur: &[u8], reference: &[u8]) -> u32
    requires { (length cur.now ≤ largest_block) × (length reference.now ≡ length cur.now) }
    ensures few { result ≤ largest_sample * length cur.now }
    ensures sum { result ≡ sad_row cur.now 0 reference.now 0 (length cur.now) }
{
    let mut sum = 0;
    for (a, b) in cur.iter().zip(reference) {
        sum += abs_diff(*a, *b);
    }
    sum
}

// The sum where it is below the limit, else the limit.
fn at_most(limit: u64, sum: u32) -> u32
    ensures { result ≡ min limit sum }
{
    u64::min(limit, u64::from(sum)) as u32
}

impl BlockPair<'_> {
    // W samples of row y, from column x on.
    fn run<const W: usize>(&self, y: usize, x: usize) -> u32
        requires { (y < self.now.h) × (x + W ≤ self.now.w) }
        ensures few { result ≤ largest_sample * W }
        ensures sum { result ≡ run_of self.now y x W }
    {
        let src = self.src + y * self.stride + x;
        let dst = self.dst + y * self.stride + x;
        sad_row(&self.cur[src..src + W], &self.reference[dst..dst + W])
    }

    // Row y and the next one, of W samples each.
    fn two_rows<const W: usize>(&self, y: usize) -> u32
        requires { (y + 1 < self.now.h) × (self.now.w ≡ W) }
        ensures few { result ≤ largest_sample * (2 * W) }
        ensures sum { rows_of self.now (y + 2) ≡ rows_of self.now y + result }
    {
        self.run::<W>(y, 0) + self.run::<W>(y + 1, 0)
    }

    // Rows of whole runs of W samples, up to the run that reaches the limit.
    fn runs_below<const W: usize>(self, limit: u64) -> u32
        requires { (0 < W) × (self.w % W ≡ 0) }
        ensures { result ≡ min limit (pair_sad self.entry) }
    {
        let mut sum = 0;
        'rows: for y in 0..self.h {
            for i in 0..self.w / W {
                sum += self.run::<W>(y, W * i);
                if limit <= sum as u64 {
                    break 'rows;
                }
            }
        }
        at_most(limit, sum)
    }

    // A block 32 samples wide, as one is that is refined, up to the two rows that reach the limit.
    fn pairs_below(self, limit: u64) -> u32
        requires { (self.w ≡ 32) × (self.h % 2 ≡ 0) }
        ensures { result ≡ min limit (pair_sad self.entry) }
    {
        let mut sum = 0;
        for i in 0..self.h / 2 {
            // After the last rows at_most tests it, with no branch that is hard to foresee.
            if limit <= sum as u64 {
                break;
            }
            sum += self.two_rows::<32>(2 * i);
        }
        at_most(limit, sum)
    }

    // A block of 16 by 16 samples, as most are, left after eight rows that reach the limit. They are written out, since a loop
    // would first work out where each of its rows starts. After four rows and twelve it takes the lesser of limit and sum and
    // goes on: eight rows in one sum are none that the compiler knows the processor's own for.
    fn square_below(self, limit: u64) -> u32
        requires { (self.w ≡ 16) × (self.h ≡ 16) }
        ensures { result ≡ min limit (pair_sad self.entry) }
    {
        let r0 = self.two_rows::<16>(0);
        let r1 = self.two_rows::<16>(2);
        let four = at_most(limit, r0 + r1);
        let r2 = self.two_rows::<16>(4);
        let r3 = self.two_rows::<16>(6);
        let eight = four + (r2 + r3);
        if limit <= eight as u64 {
            return limit as u32;
        }
        let r4 = self.two_rows::<16>(8);
        let r5 = self.two_rows::<16>(10);
        let twelve = at_most(limit, eight + (r4 + r5));
        let r6 = self.two_rows::<16>(12);
        let r7 = self.two_rows::<16>(14);
        at_most(limit, twelve + (r6 + r7))
    }

    // The sum where it is below the limit, else the limit.
    fn below(self, limit: u64) -> u32
        ensures { result ≡ min limit (pair_sad self.entry) }
    {
        if self.w == 16 && self.h == 16 {
            return self.square_below(limit);
        }
        if self.w == 32 && self.h % 2 == 0 {
            return self.pairs_below(limit);
        }
        if self.w % 16 == 0 {
            return self.runs_below::<16>(limit);
        }
        // Samples of any width, one by one, up to the first that reaches the limit.
        self.runs_below::<1>(limit)
    }
}

// The sum of absolute differences of two blocks of w by h samples where it is below the limit, else the limit. A BlockPair in place
// of the seven numbers would come through memory: a run takes 3.8 % more instructions.
pub fn get_sad_below(
    cur: &[u8],
    src: usize,
    reference: &[u8],
    dst: usize,
    stride: usize,
    w: usize,
    h: usize,
    limit: u64,
) -> u32
    requires inside { Inside (length cur.now) src stride w h × Inside (length reference.now) dst stride w h }
    requires sides { (w ≤ largest_block) × (h ≤ largest_block) × (stride ≤ largest_place) }
    ensures { result ≡ min limit (sad_block cur.now src reference.now dst stride w h) }
{
    let pair = BlockPair {
        cur,
        src,
        reference,
        dst,
        stride,
        w,
        h,
    };
    pair.below(limit)
}

// The whole sum: no sum of a block reaches the largest u64.
pub fn get_sad(
    cur: &[u8],
    src: usize,
    reference: &[u8],
    dst: usize,
    stride: usize,
    w: usize,
    h: usize,
) -> u32
    requires inside { Inside (length cur.now) src stride w h × Inside (length reference.now) dst stride w h }
    requires sides { (w ≤ largest_block) × (h ≤ largest_block) × (stride ≤ largest_place) }
    ensures { result ≡ sad_block cur.now src reference.now dst stride w h }
{
    get_sad_below(cur, src, reference, dst, stride, w, h, u64::MAX)
}
