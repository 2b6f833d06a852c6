// The entry points of grid files for C.
#![tactic(auto)]

ghost use Rattle.std.specs.Prelude.{◌≡◌};
ghost use Rattle.grid.specs.Grid.{grid_of};
ghost use Rattle.gridfile.specs.Writing.{write_answer, written_file};
ghost use Rattle.gridfile.specs.Peek.{peek_answer};
ghost use Rattle.gridfile.specs.Reading.{read_answer, read_grid};

use gridfile::read::{Peek, Shape};
use gridfile::write::Written;

#[unsafe(no_mangle)]
pub extern "C" fn lockdapple_grid_write(
    width: usize,
    height: usize,
    rows: &[i16],
    cols: &[i16],
    sads: &[u32],
    file: &mut [u8],
) -> Written
    ensures value { result ≡ write_answer width height (grid_of rows.now cols.now sads.now) file.old }
    ensures file_after { file.new ≡ written_file width height (grid_of rows.now cols.now sads.now) file.old }
{
    gridfile::calls::lockdapple_grid_write(width, height, rows, cols, sads, file)
}

#[unsafe(no_mangle)]
pub extern "C" fn lockdapple_grid_read(
    file: &[u8],
    rows: &mut [i16],
    cols: &mut [i16],
    sads: &mut [u32],
) -> Shape
    ensures value { result ≡ read_answer file.now (grid_of rows.old cols.old sads.old) }
    ensures sads_value { grid_of rows.new cols.new sads.new ≡ read_grid file.now (grid_of rows.old cols.old sads.old) }
{
    gridfile::calls::lockdapple_grid_read(file, rows, cols, sads)
}

#[unsafe(no_mangle)]
pub extern "C" fn lockdapple_grid_peek(file: &[u8]) -> Peek
    ensures { result ≡ peek_answer file.now }
{
    gridfile::calls::lockdapple_grid_peek(file)
}
