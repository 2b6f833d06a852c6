use crate::blocks::on_block;
use crate::columns::{Answer, Call, Kind, case_of};
use crate::frames::on_frame;
use crate::planes::{SAMPLES, draw, from_plane, start};
use crate::tally::Outcome;
use single::found::Found;

// What the proved code finds on frames of the call's content, which are drawn first.
fn found(call: Call, cur: &mut [u8; SAMPLES], reference: &mut [u8; SAMPLES]) -> Found {
    draw(call, 0, cur);
    draw(call, 1, reference);
    if call.kind == Kind::Frame {
        return on_frame(call, cur, reference);
    }
    let from = start(call.level);
    on_block(call, from_plane(cur, from), from_plane(reference, from))
}

// What becomes of a line: a case is equal where the proved code finds what the published Rust found.
pub(crate) fn outcome(
    line: &[u8],
    cur: &mut [u8; SAMPLES],
    reference: &mut [u8; SAMPLES],
) -> Outcome {
    if line.starts_with(b"#") {
        return Outcome::Comment;
    }
    let Some((call, answer)) = case_of(line) else {
        return Outcome::Malformed;
    };
    let found = found(call, cur, reference);
    if found.code == 0 && Answer::from(found) == answer {
        Outcome::Equal
    } else {
        Outcome::Differs
    }
}
