// What the programs print with. No contract can say what is printed; each program is held to its file instead.
#![tactic(auto)]

ghost use Rattle.std.specs.Prelude.{◌≤◌, ◌<◌, length};
ghost use Rattle.listing.specs.Parts.{across_most, cells_most};

use grid::cells::MEStats;
use grid::lent::GridRef;
use listing::lines::{LINE, put_heading, put_listed};
use text::writer::Writer;

pub fn text(rt: &impl Print, s: &[u8]) {
    let _ = rt.write_all(s);
}

pub fn labelled(rt: &impl Print, label: &[u8], n: u64) {
    text(rt, label);
    let _ = rt.print(n);
}

fn heading(rt: &impl Print, across: usize, down: usize) {
    let mut out = [0u8; LINE];
    let mut w = Writer::new(&mut out);
    put_heading(across, down, &mut w);
    text(rt, w.text());
}

fn cell(rt: &impl Print, across: usize, i: usize, stats: MEStats)
    requires { (0 < across) × (across ≤ across_most) × (i < cells_most) }
{
    let mut out = [0u8; LINE];
    let mut w = Writer::new(&mut out);
    put_listed(across, i, stats, &mut w);
    text(rt, w.text());
}

// A grid as document 01 lists it: `cells COLUMNS ROWS`, then X Y ROW COL SAD for each cell, row by row.
pub fn grid(rt: &impl Print, across: usize, cells: usize, lent: &GridRef<'_>)
    requires shape { (0 < across) × (across ≤ across_most) × (cells ≤ cells_most) }
    requires held { (cells ≤ length lent.now.rows.now) × (cells ≤ length lent.now.cols.now) × (cells ≤ length lent.now.sads.now) }
{
    heading(rt, across, cells / across);
    for i in 0..cells {
        cell(rt, across, i, lent.stats_at(i));
    }
}
