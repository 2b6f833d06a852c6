// Lists the grid of a file, called as `show_grid FILE`. Standard output has these lines and no other:
//
//     cells COLUMNS ROWS    the first line
//     X Y ROW COL SAD       a line for each cell, row by row
//     refused NUMBER        the only line, where the file is refused
//
// Standard error says in words what a refusal means, that the file could not be read or changed, and that a line could not be
// written; after such words the listing is not whole. The file is gone through twice, some bytes at a time: to check it, and for
// its cells. So a grid of any size takes the same memory.
#![tactic(auto)]

mod lines;

use given::arguments::argument_count;
use lines::show;
use passes::files::check_named;
use passes::output::write_refused;
use passes::words::{say, say_meaning};

fn main(rt: HostRuntime) {
    if argument_count(&rt) != 2 {
        say(&rt, b"expected a grid file: show_grid FILE\n");
        return;
    }
    let Some(file) = check_named(&rt, 1) else {
        return;
    };
    match file.extent {
        Ok(extent) => {
            let _ = show(&rt, extent, file.sum);
        }
        Err(refusal) => {
            write_refused(&rt, refusal.number());
            say_meaning(&rt, 1, refusal.number());
        }
    }
}
