// Prints the grid of a frame run on an 8 by 8 frame whose samples are all 90, padding too, with no previous grid:
//
//     cells COLUMNS ROWS
//     X Y ROW COL SAD           a line for each cell, row by row
//
// or `refused NUMBER` where the run is refused.
#![tactic(auto)]

use estimate::planes::FramePlanes;
use grid::lent::GridMut;
use inter::runs::run;
use print::{grid, labelled, text};

const WIDTH: usize = 8;

const HEIGHT: usize = 8;

const ACROSS: usize = WIDTH / 4;

const CELLS: usize = ACROSS * (HEIGHT / 4);

// The sides of its planes at full, half and quarter size, with the pads of 48, 40 and 20 on both ends.
const FULL: usize = WIDTH + 2 * 48;

const HALF: usize = WIDTH / 2 + 2 * 40;

const QUARTER: usize = WIDTH / 4 + 2 * 20;

fn main(rt: HostRuntime) {
    let planes = FramePlanes {
        full: &[90; FULL * FULL],
        half: &[90; HALF * HALF],
        quarter: &[90; QUARTER * QUARTER],
    };
    let mut rows = [0; CELLS];
    let mut cols = [0; CELLS];
    let mut sads = [0; CELLS];
    let mut lent = GridMut {
        rows: &mut rows,
        cols: &mut cols,
        sads: &mut sads,
    };
    match run(WIDTH, HEIGHT, &planes, &planes, None, &[0], &mut lent) {
        Ok(()) => grid(&rt, ACROSS, CELLS, &lent.read()),
        Err(refusal) => {
            labelled(&rt, b"refused ", u64::from(refusal.number()));
            text(&rt, b"\n");
        }
    }
}
