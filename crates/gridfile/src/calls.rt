ghost use Rattle.std.specs.Prelude.{◌≡◌};
ghost use Rattle.grid.specs.Grid.{grid_of};
ghost use Rattle.gridfile.specs.Writing.{write_answer, written_file};
ghost use Rattle.gridfile.specs.Peek.{peek_answer};
ghost use Rattle.gridfile.specs.Reading.{read_answer, read_grid};

use crate::read::{Peek, Shape, peek_header, read_grid};
use crate::write::{Written, write_grid};
use grid::lent::{GridMut, GridRef};

pub fn lockdapple_grid_write(
    width: usize,
    height: usize,
    rows: &[i16],
    cols: &[i16],
    sads: &[u32],
    file: &mut [u8],
) -> Written
    ensures value { result ≡ write_answer width height (grid_of rows.now cols.now sads.now) file.old }
    ensures file_after { file.new ≡ written_file width height (grid_of rows.now cols.now sads.now) file.old }
{
    let grid = GridRef { rows, cols, sads };
    Written::from(write_grid(width, height, &grid, file))
}

pub fn lockdapple_grid_read(
    file: &[u8],
    rows: &mut [i16],
    cols: &mut [i16],
    sads: &mut [u32],
) -> Shape
    ensures value { result ≡ read_answer file.now (grid_of rows.old cols.old sads.old) }
    ensures sads_value { grid_of rows.new cols.new sads.new ≡ read_grid file.now (grid_of rows.old cols.old sads.old) }
{
    let mut grid = GridMut { rows, cols, sads };
    Shape::from(read_grid(file, &mut grid))
}

// The first four bytes of a file are enough.
pub fn lockdapple_grid_peek(file: &[u8]) -> Peek
    ensures { result ≡ peek_answer file.now }
{
    Peek::from(peek_header(file))
}
