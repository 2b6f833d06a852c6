ghost use Rattle.std.specs.Prelude.{◌≡◌};
ghost use Rattle.grid.specs.Grid.{grid_of};
ghost use Rattle.grid.specs.Lent.{lent_mut, SameBuffers};
ghost use Rattle.reader.specs.Calls.{new_reader, take_reader, take_grid, end_reader};

use crate::fragment::take_fragment;
use grid::lent::GridMut;
use held::state::{Reader, between};
use refusal::kinds::Refusal;

pub fn lockdapple_reader_new() -> Reader
    ensures { result ≡ new_reader }
{
    between(0, 0, 0, 0)
}

// A fragment goes on where the reader stands, into a grid that is lent.
pub fn take(reader: Reader, fragment: &[u8], grid: &mut GridMut<'_>) -> Reader
    ensures state { result ≡ take_reader reader fragment.now (lent_mut grid.old) }
    ensures kept { lent_mut grid.new ≡ take_grid reader fragment.now (lent_mut grid.old) }
    ensures same { SameBuffers grid.old grid.new }
{
    let first = reader.settled();
    if first.code != 0 {
        return first;
    }
    if grid.room() < first.count() {
        return first.refused(Refusal::Room);
    }
    take_fragment(first, fragment, grid)
}

pub fn lockdapple_reader_take(
    reader: Reader,
    fragment: &[u8],
    rows: &mut [i16],
    cols: &mut [i16],
    sads: &mut [u32],
) -> Reader
    ensures value { result ≡ take_reader reader fragment.now (grid_of rows.old cols.old sads.old) }
    ensures sads_value { grid_of rows.new cols.new sads.new ≡ take_grid reader fragment.now (grid_of rows.old cols.old sads.old) }
{
    let mut grid = GridMut { rows, cols, sads };
    take(reader, fragment, &mut grid)
}

pub fn lockdapple_reader_end(reader: Reader) -> Reader
    ensures { result ≡ end_reader reader }
{
    let first = reader.settled();
    if first.code != 0 {
        return first;
    }
    if first.columns == 0 || (first.cells as usize) < first.count() {
        return first.refused(Refusal::Length);
    }
    first
}
