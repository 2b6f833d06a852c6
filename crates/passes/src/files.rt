ghost use Rattle.std.specs.Prelude.{◌≡◌, IfOk};
ghost use Rattle.reader.specs.Calls.{end_reader};

use crate::sums::summed;
use crate::words::or_say;
use given::arguments::{NAME, argument};
use given::files::open_named;
use gridfile::extent::Extent;
use held::check::check_fragment;
use held::state::Reader;
use reader::calls::{lockdapple_reader_end, lockdapple_reader_new};
use records::limits::{CELL_BYTES, HEADER_BYTES, MOST_FILE_CELLS};
use refusal::kinds::Refusal;
use std::fs::File;
use std::io::Read;

// So many reads bring in the largest file and a byte more, though each brings one byte.
const MOST_READS: usize = HEADER_BYTES + CELL_BYTES * MOST_FILE_CELLS + 1;

// As many bytes as are asked for at a time.
const BUFFER: usize = 4096;

// A file that was gone through: what its header says, or why it is refused, and a sum over its bytes.
#[derive(Clone, Copy, Debug, PartialEq, Eq)]
pub struct Checked {
    pub extent: Result<Extent, Refusal>,
    pub sum: u64,
}

// What a file that ends here holds. The reader's code is C's number, so it is read as one here. No header says 0 rows: a reader
// that holds 0 has read none.
fn extent_at_end(reader: Reader) -> Result<Extent, Refusal>
    ensures { IfOk result (λ extent. ((end_reader reader).code ≡ 0) × (extent.columns ≡ (end_reader reader).columns) × (extent.rows ≡ (end_reader reader).rows)) }
{
    let last = lockdapple_reader_end(reader);
    match last.code {
        0 if last.rows > 0 => Ok(Extent {
            columns: last.columns as usize,
            rows: last.rows as usize,
        }),
        10 => Err(Refusal::Mark),
        12 => Err(Refusal::Odd),
        _ => Err(Refusal::Length),
    }
}

// An open file up to its end, or to the byte that refuses it; none, with words, where it can't be read.
fn check_open(rt: &HostRuntime, name: &[u8], file: &mut File) -> Option<Checked> {
    let mut buffer = [0u8; BUFFER];
    let mut reader = lockdapple_reader_new();
    let mut sum = 0;
    for _ in 0..MOST_READS {
        let n = or_say(rt, name, file.read(&mut buffer))?;
        if n == 0 {
            break;
        }
        reader = check_fragment(reader, &buffer[..n]);
        sum = summed(sum, &buffer[..n]);
        if reader.code != 0 {
            break;
        }
    }
    Some(Checked {
        extent: extent_at_end(reader),
        sum,
    })
}

// The file that an argument names; none, with words, where it can't be opened or read.
pub fn check_named(rt: &HostRuntime, which: usize) -> Option<Checked> {
    let mut room = [0u8; NAME];
    let name = argument(rt, which, &mut room).unwrap_or(b"");
    let mut file = or_say(rt, name, open_named(rt, name))?;
    check_open(rt, name, &mut file)
}
