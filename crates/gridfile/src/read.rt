ghost use Rattle.std.specs.Prelude.{◌≡◌, ◌&&◌, ◌+◌, ◌*◌, ◌≤◌, IfOk, length, get_or, take, drop, ltb};
ghost use Rattle.ground.specs.Every.{all_below};
ghost use Rattle.grid.specs.Grid.{room};
ghost use Rattle.grid.specs.Lent.{lent_mut, SameBuffers};
ghost use Rattle.refusal.specs.Refusals.{refuse, ◌then◌};
ghost use Rattle.refusal.specs.Kinds.{code_of};
ghost use Rattle.records.specs.Forms.{mark, header_bytes, cell_bytes, most_cells};
ghost use Rattle.gridfile.specs.Peek.{peek_for, peek_answer};
ghost use Rattle.gridfile.specs.Reading.{head_of, marked, header_end, between, start, taken, kept, ended, shape_for, read_answer, read_grid};

use crate::extent::Extent;
use grid::lent::GridMut;
use records::limits::{CELL_BYTES, HEADER_BYTES, MARK, MOST_FILE_CELLS};
use records::parts::{get_cell, is_marked};
use refusal::kinds::Refusal;

// 0 or a refusal, and columns and rows of cells: the C interface, so the number is a field.
#[repr(C)]
#[derive(Clone, Copy, Debug, PartialEq, Eq)]
pub struct Shape {
    pub code: u32,
    pub columns: u32,
    pub rows: u32,
}

// The same, and how many bytes the whole file has.
#[repr(C)]
#[derive(Clone, Copy, Debug, PartialEq, Eq)]
pub struct Peek {
    pub code: u32,
    pub columns: u32,
    pub rows: u32,
    pub bytes: u64,
}

impl From<Result<Extent, Refusal>> for Shape {
    ghost from_gives = { λ answer shape. shape ≡ shape_for answer };

    fn from(answer: Result<Extent, Refusal>) -> Shape {
        match answer {
            Ok(extent) => Shape {
                code: 0,
                columns: extent.columns as u32,
                rows: extent.rows as u32,
            },
            Err(refusal) => Shape {
                code: refusal.number(),
                columns: 0,
                rows: 0,
            },
        }
    }
}

impl From<Result<Extent, Refusal>> for Peek {
    ghost from_gives = { λ answer peek. peek ≡ peek_for answer };

    fn from(answer: Result<Extent, Refusal>) -> Peek {
        match answer {
            Ok(extent) => Peek {
                code: 0,
                columns: extent.columns as u32,
                rows: extent.rows as u32,
                bytes: extent.file_bytes() as u64,
            },
            Err(refusal) => Peek {
                code: refusal.number(),
                columns: 0,
                rows: 0,
                bytes: 0,
            },
        }
    }
}

// A mark of which bytes may be missing.
fn mark_refusal(bytes: &[u8]) -> Result<(), Refusal>
    ensures { code_of result ≡ (refuse 11 (ltb 0 (length bytes.now)) then refuse 10 (marked mark 0 (get_or bytes.now 0 0)) then refuse 11 (ltb 1 (length bytes.now)) then refuse 10 (marked mark 1 (get_or bytes.now 1 0))) }
{
    match bytes {
        [] => Err(Refusal::Length),
        [first, ..] if *first != MARK[0] => Err(Refusal::Mark),
        [_] => Err(Refusal::Length),
        [_, second, ..] if *second != MARK[1] => Err(Refusal::Mark),
        _ => Ok(()),
    }
}

// The tests at a header's end: 12, then 13.
pub fn end_refusal(room: usize, columns: usize, rows: usize) -> Result<(), Refusal>
    requires { (columns ≤ most_cells) × (rows ≤ most_cells) }
    ensures { code_of result ≡ (header_end room (head_of columns rows)).code }
{
    if columns % 2 != 0 || rows % 2 != 0 {
        return Err(Refusal::Odd);
    }
    if room < columns * rows {
        return Err(Refusal::Room);
    }
    Ok(())
}

// The header, or refusals 10, 11, 12 and 13, from the front.
fn header(file: &[u8], room: usize) -> Result<Extent, Refusal>
    ensures number { code_of result ≡ ((taken room start (take header_bytes file.now)).code then refuse 11 (ltb 0 (taken room start (take header_bytes file.now)).head.columns)) }
    ensures said { IfOk result (λ said. (header_bytes ≤ length file.now) × (said.columns ≡ get_or file.now 2 0 + 1) × (said.rows ≡ get_or file.now 3 0 + 1)) }
{
    mark_refusal(file)?;
    let [_, _, columns, rows, ..] = file else {
        return Err(Refusal::Length);
    };
    let said = Extent {
        columns: *columns as usize + 1,
        rows: *rows as usize + 1,
    };
    end_refusal(room, said.columns, said.rows)?;
    Ok(said)
}

// Whether the first `count` cell records, all of whose bytes are there, start with the mark.
// The count stands beside the bytes, as a file may end inside a record.
pub fn marks_hold(records: &[u8], count: usize) -> bool
    requires { cell_bytes * count ≤ length records.now }
    ensures { result ≡ all_below count (λ i. marked mark 0 (get_or records.now (cell_bytes * i) 0) && marked mark 1 (get_or records.now (cell_bytes * i + 1) 0)) }
{
    // As `(0..count).all(..)` it was tried, and the proof didn't close.
    for i in 0..count {
        if !is_marked(records, CELL_BYTES * i) {
            return false;
        }
    }
    true
}

// The cells, and bytes left over: refusals 10 and 11, from the front.
fn cells_refusal(file: &[u8], said: Extent) -> Result<(), Refusal>
    requires { header_bytes ≤ length file.now }
    ensures { code_of result ≡ ended (taken 0 (between (head_of said.columns said.rows) 0) (drop header_bytes file.now)) }
{
    let count = said.cells();
    let there = (file.len() - HEADER_BYTES) / CELL_BYTES;
    if !marks_hold(&file[HEADER_BYTES..], there.min(count)) {
        return Err(Refusal::Mark);
    }
    if there < count {
        mark_refusal(&file[HEADER_BYTES + CELL_BYTES * there..])?;
        return Err(Refusal::Length);
    }
    if file.len() != said.file_bytes() {
        return Err(Refusal::Length);
    }
    Ok(())
}

// The cells of a file that nothing is wrong with.
fn get_cells(file: &[u8], said: Extent, grid: &mut GridMut<'_>)
    requires sound { (header_bytes ≤ length file.now) × (ended (taken 0 (between (head_of said.columns said.rows) 0) (drop header_bytes file.now)) ≡ 0) }
    requires room { said.columns * said.rows ≤ room (lent_mut grid.old) }
    ensures kept { lent_mut grid.new ≡ kept 0 (between (head_of said.columns said.rows) 0) (drop header_bytes file.now) (lent_mut grid.old) }
    ensures same { SameBuffers grid.old grid.new }
{
    for i in 0..said.cells() {
        grid.save_cell(i, get_cell(file, HEADER_BYTES + CELL_BYTES * i));
    }
}

// The grid of a file, whose cells are written where nothing is wrong with it.
pub fn read_grid(file: &[u8], grid: &mut GridMut<'_>) -> Result<Extent, Refusal>
    ensures answer { shape_for result ≡ read_answer file.now (lent_mut grid.old) }
    ensures kept { lent_mut grid.new ≡ read_grid file.now (lent_mut grid.old) }
    ensures same { SameBuffers grid.old grid.new }
{
    let said = header(file, grid.room())?;
    cells_refusal(file, said)?;
    get_cells(file, said, grid);
    Ok(said)
}

// What a header says, with room for any grid: the first four bytes of a file are enough.
pub fn peek_header(file: &[u8]) -> Result<Extent, Refusal>
    ensures { peek_for result ≡ peek_answer file.now }
{
    header(file, MOST_FILE_CELLS)
}
