ghost use Rattle.std.specs.Prelude.{◌≡◌, [], ◌∷◌, ◌+◌, ◌*◌, ◌≤◌, length};
ghost use Rattle.records.specs.Forms.{cell_bytes};
ghost use Rattle.text.specs.Put.{Puts};
ghost use Rattle.listing.specs.Parts.{line_room};
ghost use Rattle.listing.specs.Cells.{record_cells};
ghost use Rattle.report.specs.Steps.{Open, Passed, report_start, step_bytes, step_report, end_bytes};

use crate::lines::{put_cell_line, put_last_line};
use compare::cells::same_cell;
use grid::cells::MEStats;
use records::limits::CELL_BYTES;
use records::parts::get_cell;
use text::writer::Writer;

// What goes from a step to the next: cells across, the place of the next cell, and how many differed. There is no Listing in it:
// every clause and definition would read two of its numbers through one more name.
#[derive(Clone, Copy, Debug, PartialEq, Eq)]
pub struct Report {
    pub across: usize,
    pub next: usize,
    pub differ: usize,
}

impl Report {
    // No cell has gone by.
    pub fn new(across: usize) -> Report
        ensures { result ≡ report_start across }
    {
        Report {
            across,
            next: 0,
            differ: 0,
        }
    }

    // The next cell of each grid: its line where the two differ.
    fn cell(&mut self, a: MEStats, b: MEStats, w: &mut Writer<'_>)
        requires { Open self.old 1 × (w.old.at + line_room ≤ length w.old.out.now) }
        ensures went_on { self.new ≡ step_report self.old (a ∷ []) (b ∷ []) }
        ensures put { Puts (step_bytes self.old (a ∷ []) (b ∷ [])) w.old w.new }
        ensures upper_bound { w.new.at ≤ w.old.at + line_room }
    {
        if !same_cell(a, b) {
            put_cell_line(self.across, self.next, a, b, w);
            self.differ += 1;
        }
        self.next += 1;
    }

    // A step: so many cell records of each file, of which the lines of those that differ are put. The count stands beside the
    // bytes, as the definition `record_cells` takes both.
    pub fn step(&mut self, first: &[u8], second: &[u8], count: usize, w: &mut Writer<'_>)
        requires open_and_room { Open self.old count × (w.old.at + line_room * count ≤ length w.old.out.now) }
        requires count_in_bounds { (cell_bytes * count ≤ length first.now) × (cell_bytes * count ≤ length second.now) }
        ensures went_on { self.new ≡ step_report self.old (record_cells first.now count) (record_cells second.now count) }
        ensures put { Puts (step_bytes self.old (record_cells first.now count) (record_cells second.now count)) w.old w.new }
        ensures passed { Passed self.old count self.new }
    {
        for i in 0..count {
            let a = get_cell(first, CELL_BYTES * i);
            let b = get_cell(second, CELL_BYTES * i);
            self.cell(a, b, w);
        }
    }

    // The last line, of all cells that went by.
    pub fn end(&self, w: &mut Writer<'_>)
        requires { w.old.at + line_room ≤ length w.old.out.now }
        ensures put { Puts (end_bytes self.now) w.old w.new }
        ensures upper_bound { w.new.at ≤ w.old.at + line_room }
    {
        put_last_line(self.differ as u64, self.next as u64, w);
    }
}
