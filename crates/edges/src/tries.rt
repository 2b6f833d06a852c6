ghost use Rattle.std.specs.Prelude.{◌≤◌};

use crate::calls::tried;
use crate::cases::{BUFFERS, Call, Case, LONGEST, Lent};
use print::{labelled, text};

// A frame with one side of `side`; along the other, which is 8, lie two cells and one superblock.
fn sized(rt: &impl Print, call: Call, width: usize, height: usize, side: usize, flat: &[u8])
    requires { side ≤ 1032 }
{
    let raster = [0u16, 1, 2, 3, 4, 5, 6, 7, 8, 9, 10, 11, 12, 13, 14, 15, 16];
    let case = Case {
        call,
        width,
        height,
        cells: side / 4 * 2,
        lent: Lent::Longer,
    };
    tried(rt, case, flat, &raster[..side.div_ceil(64)]);
}

fn sides(rt: &impl Print, call: Call, flat: &[u8]) {
    sized(rt, call, 8, 8, 8, flat);
    sized(rt, call, 1024, 8, 1024, flat);
    sized(rt, call, 8, 1024, 1024, flat);
    sized(rt, call, 0, 8, 0, flat);
    sized(rt, call, 8, 0, 0, flat);
    sized(rt, call, 7, 8, 7, flat);
    sized(rt, call, 8, 7, 7, flat);
    sized(rt, call, 1032, 8, 1032, flat);
    sized(rt, call, 8, 1032, 1032, flat);
}

fn eight_by_eight(rt: &impl Print, call: Call, lent: Lent, flat: &[u8]) {
    let list = [0u16; 1];
    let case = Case {
        call,
        width: 8,
        height: 8,
        cells: 4,
        lent,
    };
    tried(rt, case, flat, &list);
}

fn edges_of(rt: &impl Print, call: Call, flat: &[u8]) {
    sides(rt, call, flat);
    eight_by_eight(rt, call, Lent::Exact, flat);
    eight_by_eight(rt, call, Lent::NoPrevious, flat);
    for buffer in BUFFERS {
        eight_by_eight(rt, call, Lent::Short(buffer), flat);
    }
}

// The numbers of a list. A label goes with its number: each piece is a write of its own.
fn say_list(rt: &impl Print, list: &[u16]) {
    if list.is_empty() {
        text(rt, b"list empty, ");
        return;
    }
    let mut label: &[u8] = b"list ";
    for superblock in list {
        labelled(rt, label, *superblock as u64);
        label = b" ";
    }
    text(rt, b", ");
}

// A list of superblocks of a frame that has two side by side.
fn listed(rt: &impl Print, list: &[u16], flat: &[u8]) {
    let case = Case {
        call: Call::Run,
        width: 128,
        height: 8,
        cells: 64,
        lent: Lent::Longer,
    };
    say_list(rt, list);
    tried(rt, case, flat, list);
}

pub(crate) fn all(rt: &impl Print, flat: &[u8; LONGEST]) {
    edges_of(rt, Call::Run, flat);
    for level in [4, 3, 2] {
        edges_of(rt, Call::Step(level), flat);
    }
    // The lists of document 01's case E10.
    listed(rt, &[0, 1], flat);
    listed(rt, &[1, 0], flat);
    listed(rt, &[0, 0], flat);
    listed(rt, &[], flat);
}
