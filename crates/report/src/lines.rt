ghost use Rattle.std.specs.Prelude.{◌+◌, ◌≤◌, ◌<◌, length};
ghost use Rattle.text.specs.Put.{Puts};
ghost use Rattle.listing.specs.Parts.{across_most, cells_most, line_room};
ghost use Rattle.report.specs.Lines.{cell_line, last_line};

use grid::cells::MEStats;
use listing::cells::{put_cell_text, put_place};
use text::writer::Writer;

// The line of a differing cell: its place, and what the first grid and the second hold there.
#[tactic(auto, using(listing::proofs::LineLaws::place_most, listing::proofs::LineLaws::cell_most))]
pub(crate) fn put_cell_line(
    across: usize,
    i: usize,
    first: MEStats,
    second: MEStats,
    w: &mut Writer<'_>,
)
    requires { (0 < across) × (across ≤ across_most) × (i < cells_most) × (w.old.at + line_room ≤ length w.old.out.now) }
    ensures put { Puts (cell_line across i first second) w.old w.new }
    ensures upper_bound { w.new.at ≤ w.old.at + line_room }
{
    put_place(across, i, w);
    w.put_byte(b' ');
    put_cell_text(first, w);
    w.put_byte(b' ');
    put_cell_text(second, w);
    w.put_byte(b'\n');
}

// So many of so many differ.
#[tactic(auto, using(listing::proofs::LineLaws::digits_most))]
pub(crate) fn put_last_line(n: u64, m: u64, w: &mut Writer<'_>)
    requires { w.old.at + line_room ≤ length w.old.out.now }
    ensures put { Puts (last_line n m) w.old w.new }
    ensures upper_bound { w.new.at ≤ w.old.at + line_room }
{
    w.put_text(b"differ ");
    w.put_decimal(n);
    w.put_text(b" of ");
    w.put_decimal(m);
    w.put_byte(b'\n');
}
