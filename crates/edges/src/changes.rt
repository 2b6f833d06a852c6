ghost use Rattle.std.specs.Prelude.{◌≤◌, ◌<◌};

use crate::cases::{Call, Case, Lent};
use grid::lent::GridRef;
use print::{grid, labelled, text};

// One cell more than the largest frame that is tried has, 1032 by 8.
const LENT_CELLS: usize = 517;

// What a component of a cell holds before a call: a step has a window round it, and it is odd, as nothing is that a level
// saves on a flat frame.
const BEFORE: i16 = 97;

// What a SAD holds before a call; on a flat frame all are 0.
const SAD_BEFORE: u32 = 97;

// The cells of which a call is lent the first: three arrays, as the entry points are lent them. replay has such a struct of
// another size: a common one would be a library's, with promises that no program needs.
#[derive(Drop)]
pub(crate) struct Cells {
    pub(crate) rows: [i16; LENT_CELLS],
    pub(crate) cols: [i16; LENT_CELLS],
    pub(crate) sads: [u32; LENT_CELLS],
}

// How many numbers of the grid changed: of the frame's cells, and of those past them.
#[derive(Clone, Copy, Debug, PartialEq, Eq)]
struct Changes {
    written: u64,
    past: u64,
}

impl Cells {
    pub(crate) fn new(component: i16, sad: u32) -> Cells {
        Cells {
            rows: [component; LENT_CELLS],
            cols: [component; LENT_CELLS],
            sads: [sad; LENT_CELLS],
        }
    }

    pub(crate) fn before() -> Cells {
        Cells::new(BEFORE, SAD_BEFORE)
    }

    fn changed(&self, i: usize) -> u64
        requires { i < 517 }
        ensures { result ≤ 3 }
    {
        u64::from(self.rows[i] != BEFORE)
            + u64::from(self.cols[i] != BEFORE)
            + u64::from(self.sads[i] != SAD_BEFORE)
    }

    fn changes(&self, cells: usize) -> Changes {
        let mut changes = Changes {
            written: 0,
            past: 0,
        };
        for i in 0..LENT_CELLS {
            if i < cells {
                changes.written += self.changed(i);
            } else {
                changes.past += self.changed(i);
            }
        }
        changes
    }
}

// The end of a case's line, and the grid that document 01 lists: that of the run without a previous one.
pub(crate) fn report(rt: &impl Print, code: u32, case: Case, cells: &Cells) {
    let changes = cells.changes(case.cells);
    labelled(rt, b": ", code as u64);
    labelled(rt, b", ", changes.written);
    labelled(rt, b" written, ", changes.past);
    text(rt, b" past\n");
    if case.call == Call::Run && case.lent == Lent::NoPrevious {
        let lent = GridRef {
            rows: &cells.rows,
            cols: &cells.cols,
            sads: &cells.sads,
        };
        grid(rt, 2, 4, &lent);
    }
}
