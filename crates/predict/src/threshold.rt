ghost use Rattle.std.specs.Prelude.{◌≡◌, ◌≤◌, ◌<◌, ◌^◌};
ghost use Rattle.predict.specs.Threshold.{unit24, nearest, round24, held_threshold};

use std::cmp::Ordering;

// What the last of a number's 24 significant bits counts.
fn unit24(n: u64) -> u64
    ensures unit { result ≡ unit24 n }
    ensures some { 0 < result }
    ensures most { result ≤ 2 ^ 40 }
{
    1 << 40u32.saturating_sub(n.leading_zeros())
}

// How many units are nearest to a number, of two equally near the even one.
#[tactic(auto, unfolding(crate::specs::Threshold::nearest))]
fn nearest(unit: u64, n: u64) -> u64
    requires { (n < 2 ^ 60) × (0 < unit) × (unit ≤ 2 ^ 40) }
    ensures { result ≡ nearest unit n }
{
    let below = n / unit;
    match (2 * (n % unit)).cmp(&unit) {
        Ordering::Less => below,
        Ordering::Equal => below + below % 2,
        Ordering::Greater => below + 1,
    }
}

// A number rounded to 24 significant bits, as an f32 holds it.
fn round24(n: u64) -> u64
    requires { n < 2 ^ 60 }
    ensures { result ≡ round24 n }
{
    let unit = unit24(n);
    nearest(unit, n) * unit
}

// The stop threshold as the Rust holds it: 10,066,330 / 8,388,608 is 1.2 as an f32 holds it.
pub fn held_threshold(min_sad: u32, area: u32) -> u32
    requires { (min_sad ≤ 2 ^ 30) × (area ≤ 4096) }
    ensures { result ≡ held_threshold min_sad area }
{
    let product = round24(u64::from(min_sad)) * 10066330;
    let rounded = round24(product);
    (rounded / 8388608) as u32 + area
}
