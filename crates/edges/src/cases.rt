ghost use Rattle.std.specs.Prelude.{◌<◌};

use print::{labelled, text};

// The samples of an 8 by 8 frame's planes at full, half and quarter size, with the pads of 48, 40 and 20 on all sides.
const FULL: usize = (8 + 2 * 48) * (8 + 2 * 48);

const HALF: usize = (4 + 2 * 40) * (4 + 2 * 40);

const QUARTER: usize = (2 + 2 * 20) * (2 + 2 * 20);

// Its cells.
const CELLS: usize = 4;

// No plane of a frame that is tried is longer: that of 1032 by 8 at full size.
pub(crate) const LONGEST: usize = (1032 + 2 * 48) * (8 + 2 * 48);

#[derive(Clone, Copy, Debug, PartialEq, Eq)]
pub(crate) enum Buffer {
    Cur,
    CurHalf,
    CurQuarter,
    Reference,
    RefHalf,
    RefQuarter,
    PrevRows,
    PrevCols,
    PrevSads,
    Rows,
    Cols,
    Sads,
}

// The buffers in the order of the parameters.
pub(crate) const BUFFERS: [Buffer; 12] = [
    Buffer::Cur,
    Buffer::CurHalf,
    Buffer::CurQuarter,
    Buffer::Reference,
    Buffer::RefHalf,
    Buffer::RefQuarter,
    Buffer::PrevRows,
    Buffer::PrevCols,
    Buffer::PrevSads,
    Buffer::Rows,
    Buffer::Cols,
    Buffer::Sads,
];

impl Buffer {
    // What an 8 by 8 frame needs of it.
    fn needed(self) -> usize
        ensures { 0 < result }
    {
        match self {
            Buffer::Cur | Buffer::Reference => FULL,
            Buffer::CurHalf | Buffer::RefHalf => HALF,
            Buffer::CurQuarter | Buffer::RefQuarter => QUARTER,
            _ => CELLS,
        }
    }

    fn is_previous(self) -> bool {
        matches!(self, Buffer::PrevRows | Buffer::PrevCols | Buffer::PrevSads)
    }

    fn name(self) -> &'static [u8] {
        match self {
            Buffer::Cur => b"cur         ",
            Buffer::CurHalf => b"cur_half    ",
            Buffer::CurQuarter => b"cur_quarter ",
            Buffer::Reference => b"reference   ",
            Buffer::RefHalf => b"ref_half    ",
            Buffer::RefQuarter => b"ref_quarter ",
            Buffer::PrevRows => b"prev_rows   ",
            Buffer::PrevCols => b"prev_cols   ",
            Buffer::PrevSads => b"prev_sads   ",
            Buffer::Rows => b"rows        ",
            Buffer::Cols => b"cols        ",
            Buffer::Sads => b"sads        ",
        }
    }
}

// A step is that of superblock 0 at a level.
#[derive(Clone, Copy, Debug, PartialEq, Eq)]
pub(crate) enum Call {
    Run,
    Step(usize),
}

// How long the buffers are: longer than needed, or as an 8 by 8 frame needs them, but for one that is an element shorter
// or for the three of a previous grid that is absent, which are empty.
#[derive(Clone, Copy, Debug, PartialEq, Eq)]
pub(crate) enum Lent {
    Longer,
    Exact,
    Short(Buffer),
    NoPrevious,
}

#[derive(Clone, Copy, Debug, PartialEq, Eq)]
pub(crate) struct Case {
    pub(crate) call: Call,
    pub(crate) width: usize,
    pub(crate) height: usize,
    pub(crate) cells: usize,
    pub(crate) lent: Lent,
}

impl Case {
    pub(crate) fn length(self, buffer: Buffer) -> usize {
        match self.lent {
            Lent::Longer => LONGEST,
            Lent::Short(short) if short == buffer => buffer.needed() - 1,
            Lent::NoPrevious if buffer.is_previous() => 0,
            _ => buffer.needed(),
        }
    }

    pub(crate) fn present(self) -> usize {
        usize::from(self.lent != Lent::NoPrevious)
    }

    fn say_lent(self, rt: &impl Print) {
        match self.lent {
            Lent::Longer => text(rt, b"every buffer longer"),
            Lent::Exact => text(rt, b"exactly full"),
            Lent::Short(buffer) => {
                text(rt, buffer.name());
                text(rt, b"one short");
            }
            Lent::NoPrevious => text(rt, b"no previous grid"),
        }
    }

    // The start of the case's line.
    pub(crate) fn say(self, rt: &impl Print) {
        match self.call {
            Call::Run => text(rt, b"run"),
            Call::Step(level) => labelled(rt, b"step level ", level as u64),
        }
        labelled(rt, b" width ", self.width as u64);
        labelled(rt, b" height ", self.height as u64);
        text(rt, b", ");
        self.say_lent(rt);
    }
}
