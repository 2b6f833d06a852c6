ghost use Rattle.std.specs.Prelude.{◌+◌, ◌≤◌, ◌<◌, length};
ghost use Rattle.replay.specs.Tally.{Within};

use crate::cases::outcome;
use crate::planes::SAMPLES;
use crate::tally::Tally;

// A text's first line, and what comes behind its end.
fn first_line(text: &[u8]) -> (&[u8], &[u8])
    requires { 0 < length text.now }
    ensures { length result.1.now < length text.now }
{
    match text.iter().position(|b| *b == b'\n') {
        Some(end) => (&text[..end], &text[end + 1..]),
        None => (text, &[]),
    }
}

pub(crate) fn replayed(text: &[u8], cur: &mut [u8; SAMPLES], reference: &mut [u8; SAMPLES]) -> Tally
    ensures { Within result (length text.now + 1) }
{
    let mut tally = Tally::new();
    let mut rest = text;
    // No `split`: behind the newline that ends a text it has a line more, which would be malformed.
    while !rest.is_empty() {
        let (line, behind) = first_line(rest);
        tally = tally.counted(outcome(line, cur, reference));
        rest = behind;
    }
    tally
}
