ghost use Rattle.std.specs.Prelude.{◌+◌, ◌≤◌, ◌<◌, length};

use crate::columns::Call;
use crate::sample::{Content, value};

// The samples of a frame's planes at full, half and quarter size, one after the other, with the pads of 48, 40 and 20.
pub(crate) const SAMPLES: usize = 81204;

// Where the half-size plane starts: past the full-size one of the largest frame.
pub(crate) const HALF: usize = 53824;

// Where the quarter-size plane starts.
pub(crate) const QUARTER: usize = 75728;

// Draws rows of `stride` samples. Those past the last row of a plane are never looked at.
fn fill(plane: &mut [u8], stride: usize, content: Content, seed: usize, which: usize)
    requires { (length plane.old ≤ 65536) × (0 < stride) × (seed < 65536) × (which ≤ 1) }
{
    for (y, row) in plane.chunks_mut(stride).enumerate() {
        for (x, sample) in row.iter_mut().enumerate() {
            *sample = value(content, seed, which, x, y) as u8;
        }
    }
}

// Draws the plane of the call's level, of the current frame (0) or the reference (1), by its number as `value` takes it. A
// frame's call has no level, and a run looks at all.
pub(crate) fn draw(call: Call, which: usize, planes: &mut [u8; SAMPLES])
    requires { which ≤ 1 }
{
    let full = call.width + 2 * 48;
    let half = call.width / 2 + 2 * 40;
    let quarter = call.width / 4 + 2 * 20;
    let content = call.content;
    let seed = call.seed;
    match call.level {
        4 => fill(&mut planes[QUARTER..], quarter, content, seed, which),
        3 => fill(&mut planes[HALF..QUARTER], half, content, seed, which),
        2 => fill(&mut planes[..HALF], full, content, seed, which),
        _ => {
            fill(&mut planes[QUARTER..], quarter, content, seed, which);
            fill(&mut planes[HALF..QUARTER], half, content, seed, which);
            fill(&mut planes[..HALF], full, content, seed, which);
        }
    }
}

// Where a level's plane starts.
pub(crate) fn start(level: usize) -> usize
    ensures { result ≤ 75728 }
{
    match level {
        4 => QUARTER,
        3 => HALF,
        _ => 0,
    }
}

// The planes from one on: of a function of its own, since among the many arguments of a call it is slow to prove.
pub(crate) fn from_plane(planes: &[u8], start: usize) -> &[u8]
    requires { start ≤ length planes.now }
{
    &planes[start..]
}
