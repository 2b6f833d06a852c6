ghost use Rattle.std.specs.Prelude.{◌+◌, ◌≤◌, ◌<◌, length};
ghost use Rattle.text.specs.Put.{Puts};
ghost use Rattle.listing.specs.Parts.{across_most, cells_most, line_room};
ghost use Rattle.listing.specs.Lines.{heading_line, listed_line, refused_line};

use crate::cells::{put_cell_text, put_place};
use grid::cells::MEStats;
use text::writer::Writer;

// Room for any line. That it is left is asked by each line: a writer's room shrinks as it goes.
pub const LINE: usize = 64;

// So many columns and rows of cells.
#[tactic(auto, using(crate::proofs::LineLaws::digits_most))]
pub fn put_heading(columns: usize, rows: usize, w: &mut Writer<'_>)
    requires { w.old.at + line_room ≤ length w.old.out.now }
    ensures put { Puts (heading_line columns rows) w.old w.new }
    ensures upper_bound { w.new.at ≤ w.old.at + line_room }
{
    w.put_text(b"cells ");
    w.put_decimal(columns as u64);
    w.put_byte(b' ');
    w.put_decimal(rows as u64);
    w.put_byte(b'\n');
}

// The line of a cell: its place, and what the grid holds there.
#[tactic(auto, using(crate::proofs::LineLaws::place_most, crate::proofs::LineLaws::cell_most))]
pub fn put_listed(across: usize, i: usize, cell: MEStats, w: &mut Writer<'_>)
    requires { (0 < across) × (across ≤ across_most) × (i < cells_most) × (w.old.at + line_room ≤ length w.old.out.now) }
    ensures put { Puts (listed_line across i cell) w.old w.new }
    ensures upper_bound { w.new.at ≤ w.old.at + line_room }
{
    put_place(across, i, w);
    w.put_byte(b' ');
    put_cell_text(cell, w);
    w.put_byte(b'\n');
}

// The only line of a refusal, by its number, as the definition `refused_line` takes it.
#[tactic(auto, using(crate::proofs::LineLaws::digits_most))]
pub fn put_refused(number: u32, w: &mut Writer<'_>)
    requires { w.old.at + line_room ≤ length w.old.out.now }
    ensures put { Puts (refused_line number) w.old w.new }
    ensures upper_bound { w.new.at ≤ w.old.at + line_room }
{
    w.put_text(b"refused ");
    w.put_decimal(u64::from(number));
    w.put_byte(b'\n');
}
