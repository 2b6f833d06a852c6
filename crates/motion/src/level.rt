ghost use Rattle.std.specs.Prelude.{◌≡◌};
ghost use Rattle.motion.specs.Level.{level_of};

// A level: its block size in full-size pixels, its shift, its planes' pad, and the size refined first.
// Bounds on these stand in contracts: an invariant would ask them of all who make a level.
#[derive(Clone, Copy, PartialEq, Eq, Debug)]
pub struct Level {
    pub mv_size: usize,
    pub ssdec: u32,
    pub pad: usize,
    pub refined: usize,
}

// A level is its number here and in all contracts, as the definitions take it and C passes it.
// Any other number than 4 and 3 is answered with level 2; callers refuse what is no level.
#[tactic(auto, unfolding(crate::specs::Level::level_of))]
pub fn level_of(level: usize) -> Level
    ensures { result ≡ level_of level }
{
    match level {
        4 => Level {
            mv_size: 64,
            ssdec: 2,
            pad: 20,
            refined: 64,
        },
        3 => Level {
            mv_size: 32,
            ssdec: 1,
            pad: 40,
            refined: 64,
        },
        _ => Level {
            mv_size: 16,
            ssdec: 0,
            pad: 48,
            refined: 32,
        },
    }
}
