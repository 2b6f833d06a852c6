ghost use Rattle.std.specs.Prelude.{◌≡◌, ◌*◌, ◌≤◌, IfSome, IsSome, IsNone, length};
ghost use Rattle.records.specs.Forms.{cell_bytes};
ghost use Rattle.passes.specs.Again.{Loaded};

use crate::sums::summed;
use crate::words::{or_say, say_changed};
use given::arguments::{NAME, argument};
use given::files::{open_named, read_full};
use gridfile::read::marks_hold;
use records::limits::{CELL_BYTES, HEADER_BYTES};
use std::fs::File;

// As many cells as are read before their lines are written.
pub const BLOCK: usize = 256;

// What goes from a block of a file to the next: which argument names the file, and the sum over the bytes so far.
#[derive(Clone, Copy, Debug, PartialEq, Eq)]
pub struct Again {
    pub which: usize,
    pub sum: u64,
}

// A file that was checked and is gone through again.
#[derive(Drop)]
pub struct Reopened {
    pub file: File,
    pub again: Again,
}

impl Reopened {
    // The file from its first byte on; none, with words, where it can't be opened.
    pub fn open(rt: &HostRuntime, which: usize) -> Option<Reopened>
        ensures { IfSome result (λ opened. (opened.again.which ≡ which) × (opened.again.sum ≡ 0)) }
    {
        let mut room = [0u8; NAME];
        let name = argument(rt, which, &mut room).unwrap_or(b"");
        let file = or_say(rt, name, open_named(rt, name))?;
        let again = Again { which, sum: 0 };
        Some(Reopened { file, again })
    }

    // Past the header, which was looked at when the file was checked. Not part of `open`: what comes first needs no byte of the file.
    pub fn pass_header(&mut self)
        ensures { self.new.again.which ≡ self.old.again.which }
    {
        let mut header = [0u8; HEADER_BYTES];
        read_full(&mut self.file, &mut header);
        self.again.sum = summed(self.again.sum, &header);
    }

    // The next records; none, with words, where they are no longer there. The count stands beside the buffer, which is as long as
    // the largest block: one read more tells that the file has ended.
    #[tactic(auto, unfolding(crate::specs::Again::all_marked))]
    pub fn load(&mut self, rt: &HostRuntime, count: usize, block: &mut [u8]) -> Option<()>
        requires { cell_bytes * count ≤ length block.old }
        ensures block_len_unchanged { length block.new ≡ length block.old }
        ensures loaded { IsSome result → Loaded self.old.again.sum count block.new self.new.again }
        ensures same_name { self.new.again.which ≡ self.old.again.which }
        ensures same_sum { IsNone result → self.new.again.sum ≡ self.old.again.sum }
    {
        let n = CELL_BYTES * count;
        // A block that is not full ends where the file does.
        let got = read_full(&mut self.file, block);
        if got == n && marks_hold(block, count) {
            self.again.sum = summed(self.again.sum, &block[..n]);
            return Some(());
        }
        say_changed(rt, self.again.which);
        None
    }

    // That the file has no byte more, and its bytes are those that were checked; none, with words, where not.
    pub fn same_at_end(&mut self, rt: &HostRuntime, checked: u64) -> Option<()>
        ensures checked { IsSome result → self.old.again.sum ≡ checked }
        ensures same { self.new.again ≡ self.old.again }
    {
        let more = read_full(&mut self.file, &mut [0u8; 1]);
        if more == 0 && self.again.sum == checked {
            return Some(());
        }
        say_changed(rt, self.again.which);
        None
    }
}
