ghost use Rattle.std.specs.Prelude.{◌≡◌, true};
ghost use Rattle.motion.specs.Frame.{Side};
ghost use Rattle.refusal.specs.Refusals.{level_ok};
ghost use Rattle.estimate.specs.Asked.{PlaneHeld};

// What a level of a run works with besides the grids: it has passed every test of its sides, its level and its planes.
#[derive(Clone, Copy)]
pub struct LevelInputs<'a> {
    pub width: usize,
    pub height: usize,
    pub level: usize,
    pub cur: &'a [u8],
    pub reference: &'a [u8],
    pub weight: u32,
    pub ghost wide: { Side width },
    pub ghost high: { Side height },
    pub ghost leveled: { level_ok level 0 ≡ true },
    pub ghost cur_held: { PlaneHeld width height level cur.now },
    pub ghost reference_held: { PlaneHeld width height level reference.now },
}
