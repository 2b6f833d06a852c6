// The entry points of grid files that come in fragments, for C.
#![tactic(auto)]

ghost use Rattle.std.specs.Prelude.{◌≡◌};
ghost use Rattle.grid.specs.Grid.{grid_of};
ghost use Rattle.reader.specs.Calls.{new_reader, take_reader, take_grid, end_reader};

use held::state::Reader;

#[unsafe(no_mangle)]
pub extern "C" fn lockdapple_reader_new() -> Reader
    ensures { result ≡ new_reader }
{
    reader::calls::lockdapple_reader_new()
}

#[unsafe(no_mangle)]
pub extern "C" fn lockdapple_reader_take(
    reader: Reader,
    fragment: &[u8],
    rows: &mut [i16],
    cols: &mut [i16],
    sads: &mut [u32],
) -> Reader
    ensures value { result ≡ take_reader reader fragment.now (grid_of rows.old cols.old sads.old) }
    ensures sads_value { grid_of rows.new cols.new sads.new ≡ take_grid reader fragment.now (grid_of rows.old cols.old sads.old) }
{
    reader::calls::lockdapple_reader_take(reader, fragment, rows, cols, sads)
}

#[unsafe(no_mangle)]
pub extern "C" fn lockdapple_reader_end(reader: Reader) -> Reader
    ensures { result ≡ end_reader reader }
{
    reader::calls::lockdapple_reader_end(reader)
}
