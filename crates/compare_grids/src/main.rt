// Compares two grid files cell by cell, called as `compare_grids FIRST SECOND`. Standard output has these lines and no other:
//
//     X Y ROW COL SAD ROW COL SAD    a cell that differs: its column and row, what the first holds and what the second
//     differ N of M                  the last line: how many cells differ, of how many
//     refused NUMBER                 the only line, where a file is refused or the two have unequal shapes
//
// Standard error says in words what a refusal means, which file could not be read or changed, and that a line could not be
// written; after such words there is no last line. A file is gone through twice, some bytes at a time: to check it, and beside
// the other one. So a grid of any size takes the same memory.
#![tactic(auto)]

mod lines;
mod words;

use compare::calls::cells_of_both;
use given::arguments::argument_count;
use gridfile::read::Shape;
use lines::compare;
use passes::files::check_named;
use passes::output::write_refused;
use passes::words::say;
use records::limits::MOST_FILE_CELLS;
use words::say_refused;

fn main(rt: HostRuntime) {
    if argument_count(&rt) != 3 {
        say(
            &rt,
            b"expected two grid files: compare_grids FIRST SECOND\n",
        );
        return;
    }
    let Some(first) = check_named(&rt, 1) else {
        return;
    };
    let Some(second) = check_named(&rt, 2) else {
        return;
    };
    if let Err(code) = cells_of_both(
        Shape::from(first.extent),
        MOST_FILE_CELLS,
        Shape::from(second.extent),
        MOST_FILE_CELLS,
    ) {
        write_refused(&rt, code);
        return say_refused(&rt, first, second);
    }
    let _ = compare(&rt, first, second);
}
