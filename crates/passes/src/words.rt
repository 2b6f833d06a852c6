ghost use Rattle.std.specs.Prelude.{◌≡◌, IfSome, Ok};

use given::arguments::{NAME, argument};
use refusal::kinds::Refusal;
use std::io;
use std::io::Error;

// Standard error: what a person reads.
pub fn say(rt: &HostRuntime, text: &[u8]) {
    let _ = rt.stderr().write_all(text);
}

// What the system said of a failure: std puts the error's number behind it.
fn say_error(rt: &HostRuntime, error: Error) {
    match error.to_string(rt.alloc()) {
        Ok(text) => match text.as_str().split_once(" (os error ") {
            Some((words, _)) => say(rt, words.as_bytes()),
            None => say(rt, text.as_bytes()),
        },
        Err(_) => {
            let _ = rt.eprint(error);
        }
    }
}

// What was tried, done; none, with words about what failed and why.
pub(crate) fn or_say<T: Drop>(rt: &HostRuntime, what: &[u8], tried: io::Result<T>) -> Option<T>
    ensures { IfSome result (λ done. tried ≡ Ok done) }
{
    match tried {
        Ok(done) => Some(done),
        Err(error) => {
            say(rt, what);
            say(rt, b": ");
            say_error(rt, error);
            say(rt, b"\n");
            None
        }
    }
}

// The name that an argument is.
pub fn say_name(rt: &HostRuntime, which: usize) {
    let mut room = [0u8; NAME];
    say(rt, argument(rt, which, &mut room).unwrap_or(b""));
}

// A file that was checked is no longer the same.
pub fn say_changed(rt: &HostRuntime, which: usize) {
    say_name(rt, which);
    say(rt, b": changed while it was read\n");
}

// A refusal's number, and what it means.
pub fn say_refusal(rt: &HostRuntime, refusal: Refusal) {
    let _ = eprintln!(rt; ": refused {}: {refusal}", refusal.number());
}

// Which file was refused, by the number of what a header or a record can be refused for, and what it means.
pub fn say_meaning(rt: &HostRuntime, which: usize, number: u32) {
    say_name(rt, which);
    say_refusal(
        rt,
        match number {
            10 => Refusal::Mark,
            11 => Refusal::Length,
            _ => Refusal::Odd,
        },
    );
}
