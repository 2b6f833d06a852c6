ghost use Rattle.std.specs.Prelude.{◌≡◌};
ghost use Rattle.estimate.specs.Inputs.{plane_at};
ghost use Rattle.estimate.specs.Lent.{planes_lent};

// The planes of a frame at full, half and quarter size.
#[derive(Clone, Copy)]
pub struct FramePlanes<'a> {
    pub full: &'a [u8],
    pub half: &'a [u8],
    pub quarter: &'a [u8],
}

impl<'a> FramePlanes<'a> {
    // The plane of a level.
    pub fn at(&self, level: usize) -> &'a [u8]
        ensures { result.now ≡ plane_at (planes_lent self.now) level }
    {
        match level {
            4 => self.quarter,
            3 => self.half,
            _ => self.full,
        }
    }
}
