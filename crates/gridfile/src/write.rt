ghost use Rattle.std.specs.Prelude.{◌≡◌, ◌/◌, ◌%◌, ◌≤◌, IfOk, length};
ghost use Rattle.std.proofs.lemmas.List.Edits.{sets};
ghost use Rattle.motion.specs.Limits.{cell_side};
ghost use Rattle.grid.specs.Grid.{room};
ghost use Rattle.grid.specs.Lent.{lent};
ghost use Rattle.refusal.specs.Kinds.{code_of};
ghost use Rattle.records.specs.Forms.{one_sad, plain_forms, header_bytes};
ghost use Rattle.records.specs.Records.{file_bytes};
ghost use Rattle.gridfile.specs.Writing.{cell_records, write_refusal, written_for, write_answer, written_file};

use crate::extent::Extent;
use grid::lent::GridRef;
use motion::limits::CELL_SIDE;
use records::limits::{CELL_BYTES, HEADER_BYTES};
use records::parts::{put_cell, put_header};
use refusal::kinds::Refusal;
use refusal::refusals::{grid_ok, side_ok};

// 0 or a refusal, and how many bytes the file has: the C interface, so the number is a field.
#[repr(C)]
#[derive(Clone, Copy, Debug, PartialEq, Eq)]
pub struct Written {
    pub code: u32,
    pub bytes: u64,
}

impl From<Result<usize, Refusal>> for Written {
    ghost from_gives = { λ answer written. written ≡ written_for answer };

    fn from(answer: Result<usize, Refusal>) -> Written {
        match answer {
            Ok(bytes) => Written {
                code: 0,
                bytes: bytes as u64,
            },
            Err(refusal) => Written {
                code: refusal.number(),
                bytes: 0,
            },
        }
    }
}

// Columns and rows of a frame's grid, or refusals 1, 5 and 13, in this order.
// Width and height stay two numbers, as the definitions and C have them.
fn extent_of(width: usize, height: usize, room: usize, bytes: usize) -> Result<Extent, Refusal>
    ensures number { code_of result ≡ write_refusal width height room bytes }
    ensures sides { IfOk result (λ extent. (extent.columns ≡ width / cell_side) × (extent.rows ≡ height / cell_side)) }
{
    if !side_ok(width) || !side_ok(height) {
        return Err(Refusal::Side);
    }
    if !grid_ok(width, height, room) {
        return Err(Refusal::Grid);
    }
    let extent = Extent {
        columns: width / CELL_SIDE,
        rows: height / CELL_SIDE,
    };
    if bytes < extent.file_bytes() {
        return Err(Refusal::Room);
    }
    Ok(extent)
}

// The records of the first `count` cells, behind the header, two a turn: one a turn took up to 1.4 of the time.
fn put_cells(count: usize, grid: &GridRef<'_>, file: &mut [u8])
    requires { (count ≤ room (lent grid.now)) × (file_bytes plain_forms count ≤ length file.old) × (count % 2 ≡ 0) }
    ensures { file.new ≡ sets file.old header_bytes (cell_records one_sad (lent grid.now) 0 count) }
{
    for pair in 0..count / 2 {
        let i = 2 * pair;
        let at = HEADER_BYTES + CELL_BYTES * i;
        put_cell(at, grid.stats_at(i), file);
        put_cell(at + CELL_BYTES, grid.stats_at(i + 1), file);
    }
}

// The file of a frame's grid, and how many bytes it has.
pub fn write_grid(
    width: usize,
    height: usize,
    grid: &GridRef<'_>,
    file: &mut [u8],
) -> Result<usize, Refusal>
    ensures answer { written_for result ≡ write_answer width height (lent grid.now) file.old }
    ensures file_after { file.new ≡ written_file width height (lent grid.now) file.old }
{
    let extent = extent_of(width, height, grid.room(), file.len())?;
    put_header(extent.columns, extent.rows, file);
    put_cells(extent.cells(), grid, file);
    Ok(extent.file_bytes())
}
