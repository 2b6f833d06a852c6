ghost use Rattle.std.specs.Prelude.{◌+◌, ◌≤◌, ◌<◌, length};
ghost use Rattle.text.specs.Put.{Puts};
ghost use Rattle.listing.specs.Parts.{place_text, cell_text};

use grid::cells::MEStats;
use text::writer::Writer;

// The column and row of a place. Two numbers, as the definition `place_text` takes them.
#[tactic(auto, using(crate::proofs::LineLaws::place_length))]
pub fn put_place(across: usize, i: usize, w: &mut Writer<'_>)
    requires { (0 < across) × (w.old.at + length (place_text across i) ≤ length w.old.out.now) }
    ensures { Puts (place_text across i) w.old w.new }
{
    let x = i % across;
    let y = i / across;
    w.put_decimal(x as u64);
    w.put_byte(b' ');
    w.put_decimal(y as u64);
}

// Row, col and SAD.
#[tactic(auto, using(crate::proofs::LineLaws::cell_length))]
pub fn put_cell_text(cell: MEStats, w: &mut Writer<'_>)
    requires { w.old.at + length (cell_text cell) ≤ length w.old.out.now }
    ensures { Puts (cell_text cell) w.old w.new }
{
    w.put_signed(cell.mv.row);
    w.put_byte(b' ');
    w.put_signed(cell.mv.col);
    w.put_byte(b' ');
    w.put_decimal(u64::from(cell.normalized_sad));
}
