ghost use Rattle.std.specs.Prelude.{◌≡◌, ◌&&◌, ◌+◌, ◌≤◌, ◌<◌, eqb, get_or, length};
ghost use Rattle.std.proofs.lemmas.List.Edits.{sets};
ghost use Rattle.std.proofs.Math.Seq.{slice};
ghost use Rattle.records.specs.Forms.{byte_sides, one_sad, mark, header_bytes, cell_bytes, most_cells};
ghost use Rattle.records.specs.Records.{header_record, cell_record, cell_of};

use crate::limits::{CELL_BYTES, MARK};
use crate::numbers::{get_i16, get_u32};
use grid::cells::MEStats;
use motion::vector::MotionVector;

// The mark that every record starts with. A file and a place in it, as `sets` and `slice` of the promises take them.
fn put_mark(at: usize, file: &mut [u8])
    requires { at + 2 ≤ length file.old }
    ensures { file.new ≡ sets file.old at mark }
{
    // A copy: with a reference to the constant a written file takes 36 % more instructions.
    let mark = MARK;
    file[at..at + 2].copy_from_slice(&mark);
}

// Whether a record starts with the mark.
pub fn is_marked(file: &[u8], at: usize) -> bool
    requires { at + 2 ≤ length file.now }
    ensures { result ≡ (eqb (get_or file.now at 0) (get_or mark 0 0) && eqb (get_or file.now (at + 1) 0) (get_or mark 1 0)) }
{
    // As one number: byte by byte a file that is read takes 20 % more instructions.
    u16::from_le_bytes([file[at], file[at + 1]]) == u16::from_le_bytes(MARK)
}

// Columns and rows of cells, each less one.
pub fn put_header(columns: usize, rows: usize, file: &mut [u8])
    requires { (0 < columns) × (columns ≤ most_cells) × (0 < rows) × (rows ≤ most_cells) × (header_bytes ≤ length file.old) }
    ensures { file.new ≡ sets file.old 0 (header_record byte_sides columns rows) }
{
    put_mark(0, file);
    file[2] = (columns - 1) as u8;
    file[3] = (rows - 1) as u8;
}

// The eight bytes behind the mark are one store: with two cells a turn the loop takes two thirds of the time.
pub fn put_cell(at: usize, cell: MEStats, file: &mut [u8])
    requires { at + cell_bytes ≤ length file.old }
    ensures { file.new ≡ sets file.old at (cell_record one_sad cell) }
{
    let row = cell.mv.row.cast_unsigned() as u64;
    let col = cell.mv.col.cast_unsigned() as u64;
    let sad = cell.normalized_sad as u64;
    let number = row + 65536 * (col + 65536 * sad);
    put_mark(at, file);
    file[at + 2..at + CELL_BYTES].copy_from_slice(&number.to_le_bytes());
}

pub fn get_cell(file: &[u8], at: usize) -> MEStats
    requires { at + cell_bytes ≤ length file.now }
    ensures { result ≡ cell_of one_sad (slice at (at + cell_bytes) file.now) }
{
    MEStats {
        mv: MotionVector {
            row: get_i16(file, at + 2),
            col: get_i16(file, at + 4),
        },
        normalized_sad: get_u32(file, at + 6),
    }
}
