ghost use Rattle.std.specs.Prelude.{◌≤◌, length};
ghost use Rattle.sad.specs.Asked.{Inside, largest_block};

// Two blocks of w by h samples, each inside its slice, whose rows start `stride` samples after the one before.
#[derive(Clone, Copy)]
pub(crate) struct BlockPair<'a> {
    pub cur: &'a [u8],
    pub src: usize,
    pub reference: &'a [u8],
    pub dst: usize,
    pub stride: usize,
    pub w: usize,
    pub h: usize,
    pub ghost inside_cur: { Inside (length cur.now) src stride w h },
    pub ghost inside_reference: { Inside (length reference.now) dst stride w h },
    pub ghost sides: { (w ≤ largest_block) × (h ≤ largest_block) },
}
