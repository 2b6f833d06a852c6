ghost use Rattle.std.specs.Prelude.{◌≤◌, ◌<◌};

// What planes hold, as the published Rust was given them.
#[derive(Clone, Copy, Debug, PartialEq, Eq)]
pub(crate) enum Content {
    Flat,
    Gradient,
    Noise,
    Saturated,
    Shifted,
    Plateaus,
}

impl TryFrom<usize> for Content {
    type Error = ();

    fn try_from(column: usize) -> Result<Content, ()> {
        match column {
            0 => Ok(Content::Flat),
            1 => Ok(Content::Gradient),
            2 => Ok(Content::Noise),
            3 => Ok(Content::Saturated),
            4 => Ok(Content::Shifted),
            5 => Ok(Content::Plateaus),
            _ => Err(()),
        }
    }
}

// Seeds are below this.
pub(crate) const SEEDS: usize = 65_536;

pub(crate) const PRIME: usize = 2_147_483_647;

fn squared(v: usize) -> usize
    requires { v < 2147483647 }
    ensures { result < 2147483647 }
{
    (v * v + 7) % PRIME
}

// Squaring twice, since without it nearby samples are visibly related.
fn noise(k: usize, x: usize, y: usize) -> usize
    requires { (k < 131072) × (x < 131072) × (y < 131072) }
    ensures { result < 256 }
{
    let v = (x * 73_856_093 + y * 19_349_663 + k * 83_492_791 + 12_345) % PRIME;
    squared(squared(v)) / 4096 % 256
}

// Seed, plane and place are four numbers here and below: they are what the published sums are of.
fn gradient(seed: usize, plane: usize, x: usize, y: usize) -> usize
    requires { (seed < 65536) × (plane ≤ 1) × (x < 65536) × (y < 65536) }
    ensures { result < 256 }
{
    (x * (1 + seed % 7) + y * (seed / 7 % 5) + 3 * plane) % 256
}

fn saturated(value: usize) -> usize
    ensures { result < 256 }
{
    if value >= 128 { 255 } else { 0 }
}

fn shifted(seed: usize, plane: usize, x: usize, y: usize) -> usize
    requires { (seed < 65536) × (plane ≤ 1) × (x < 65536) × (y < 65536) }
    ensures { result < 256 }
{
    if plane == 0 {
        noise(seed, x + 16, y + 16)
    } else {
        noise(seed, x + 12 + seed % 9, y + 12 + seed / 9 % 9)
    }
}

// Every other seed has the same plateaus in both planes.
fn plateau(seed: usize, plane: usize, x: usize, y: usize) -> usize
    requires { (seed < 65536) × (plane ≤ 1) × (x < 65536) × (y < 65536) }
    ensures { result < 256 }
{
    if seed % 2 == 0 {
        60 * (noise(seed, x / 8, y / 8) % 4)
    } else {
        60 * (noise(seed + SEEDS * plane, x / 8, y / 8) % 4)
    }
}

// The sample in column x and row y of a padded plane, the current one (0) or the reference (1): a number, since the sums of the
// published Rust count with it.
pub(crate) fn value(content: Content, seed: usize, plane: usize, x: usize, y: usize) -> usize
    requires { (seed < 65536) × (plane ≤ 1) × (x < 65536) × (y < 65536) }
    ensures { result < 256 }
{
    match content {
        Content::Flat => (seed + 5 * plane) % 256,
        Content::Gradient => gradient(seed, plane, x, y),
        Content::Noise => noise(seed + SEEDS * plane, x, y),
        Content::Saturated => saturated(noise(seed + SEEDS * plane, x, y)),
        Content::Shifted => shifted(seed, plane, x, y),
        Content::Plateaus => plateau(seed, plane, x, y),
    }
}
