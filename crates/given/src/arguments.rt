ghost use Rattle.std.specs.Prelude.{◌≤◌, length, MatchOption};

use std::env::FillError;
use std::rt::Env;

// Room for the name of any file.
pub const NAME: usize = 4096;

fn is_argument(rt: &impl Env, which: usize) -> bool {
    !matches!(rt.arg(which, &mut [0u8; 1]), Err(FillError::NotPresent))
}

// How many arguments the program was started with, its own name among them.
pub fn argument_count(rt: &impl Env) -> usize {
    (0..usize::MAX)
        .find(|which| !is_argument(rt, *which))
        .unwrap_or(usize::MAX)
}

// An argument's bytes, in the room lent for them: none where there is no such argument or no room for it.
pub fn argument<'a>(rt: &impl Env, which: usize, room: &'a mut [u8]) -> Option<&'a [u8]>
    ensures { MatchOption result (Unit {0}) (λ name. length name.now ≤ length room.old) }
{
    let letters = rt.arg(which, room).ok()?;
    Some(&room[..letters])
}
