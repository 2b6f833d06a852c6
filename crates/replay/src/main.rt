// Replays fixed answers of the published Rust, called as `replay FILE..` with files that oracle/answers wrote, and says
// of each how many come out equal. The lines are
//
//     FILE EQUAL of READ        the cases of a file
//     differs FILE LINE         its first line whose answer is another
//     malformed FILE LINE       its first line that is no case; it counts as read
//     cannot read FILE          instead of the file's other lines
//     equal EQUAL of READ       the last line: the cases of all files
//     expected files of answers: replay FILE..
#![tactic(auto)]

mod blocks;
mod cases;
mod columns;
mod frames;
mod grids;
mod lines;
mod numbers;
mod planes;
mod report;
mod sample;
mod tally;

ghost use Rattle.std.specs.Prelude.{◌≤◌, ◌<◌, ◌^◌, length, MatchOption};
ghost use Rattle.replay.specs.Tally.{Within};

use crate::lines::replayed;
use crate::planes::SAMPLES;
use crate::report::{cannot_read, equal_of, report};
use crate::tally::Tally;
use given::arguments::{NAME, argument, argument_count};
use given::files::{open_named, read_full};
use print::text;

// No file of cases is as long as this.
const TOO_LONG: usize = 16384;

// No system passes more arguments.
const ARGUMENTS: usize = 0x7fff_ffff;

// A file's bytes: none where it cannot be read. A failed read gives no byte, and a full buffer may be a part of the file.
fn read<'a>(rt: &HostRuntime, name: &[u8], file: &'a mut [u8]) -> Option<&'a [u8]>
    ensures { MatchOption result (Unit {0}) (λ bytes. length bytes.now < TOO_LONG) }
{
    let n = read_full(&mut open_named(rt, name).ok()?, file);
    if n == 0 || n >= TOO_LONG {
        return None;
    }
    Some(&file[..n])
}

fn replay(
    rt: &HostRuntime,
    name: &[u8],
    file: &mut [u8],
    cur: &mut [u8; SAMPLES],
    reference: &mut [u8; SAMPLES],
) -> Tally
    ensures { Within result (2 ^ 16) }
{
    let Some(lines) = read(rt, name, file) else {
        cannot_read(rt, name);
        return Tally::new();
    };
    let tally = replayed(lines, cur, reference);
    report(rt, name, tally);
    tally
}

// Replays the file that an argument names.
fn replay_named(
    rt: &HostRuntime,
    which: usize,
    file: &mut [u8],
    cur: &mut [u8; SAMPLES],
    reference: &mut [u8; SAMPLES],
) -> Tally
    ensures { Within result (2 ^ 16) }
{
    let mut room = [0u8; NAME];
    let name = argument(rt, which, &mut room).unwrap_or(b"");
    replay(rt, name, file, cur, reference)
}

fn replay_all(
    rt: &HostRuntime,
    file: &mut [u8; TOO_LONG],
    cur: &mut [u8; SAMPLES],
    reference: &mut [u8; SAMPLES],
) {
    let mut all = Tally::new();
    for which in 1..argument_count(rt).min(ARGUMENTS + 1) {
        all = all + replay_named(rt, which, file, cur, reference);
    }
    equal_of(rt, b"equal", all);
}

// The file and the planes are lent from here: compiled, the prologue of so large a frame can spoil a register that a
// test before it set, and nothing comes before this one. The planes go along as two: a struct of both would have to be borrowed
// anew in each turn.
fn main(rt: HostRuntime) {
    if argument_count(&rt) < 2 {
        text(&rt, b"expected files of answers: replay FILE..\n");
        return;
    }
    let mut file = [0u8; TOO_LONG];
    let mut cur = [0u8; SAMPLES];
    let mut reference = [0u8; SAMPLES];
    replay_all(&rt, &mut file, &mut cur, &mut reference);
}
