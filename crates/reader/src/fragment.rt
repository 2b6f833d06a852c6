ghost use Rattle.std.specs.Prelude.{◌≡◌, ◌+◌, ◌*◌, ◌-◌, ◌≤◌, ◌<◌, length, take};
ghost use Rattle.grid.specs.Grid.{room};
ghost use Rattle.grid.specs.Lent.{lent_mut, SameBuffers};
ghost use Rattle.records.specs.Forms.{cell_bytes, most_cells};
ghost use Rattle.gridfile.specs.Reading.{head_of, between, taken, keep, kept};
ghost use Rattle.held.specs.Held.{reader_of, state_of, Settled};
ghost use Rattle.reader.specs.Calls.{Fits};

use grid::lent::GridMut;
use held::state::{Reader, between};
use records::limits::{CELL_BYTES, CELL_LAST};
use records::parts::{get_cell, is_marked};

// The cell that a byte completes goes to the grid.
fn keep_byte(reader: Reader, byte: u8, grid: &mut GridMut<'_>)
    requires { Settled reader × Fits (room (lent_mut grid.old)) (state_of reader) }
    ensures kept { lent_mut grid.new ≡ keep (room (lent_mut grid.old)) (state_of reader) byte (lent_mut grid.old) }
    ensures same { SameBuffers grid.old grid.new }
{
    if reader.code != 0 || reader.held != CELL_LAST {
        return;
    }
    let place = reader.cells as usize;
    if reader.count() <= place {
        return;
    }
    let mut record = reader.part;
    record[CELL_BYTES - 1] = byte;
    grid.save_cell(place, get_cell(&record, 0));
}

// A fragment byte by byte, up to the first that is refused.
fn take_bytes(reader: Reader, fragment: &[u8], grid: &mut GridMut<'_>) -> Reader
    requires { Settled reader × Fits (room (lent_mut grid.old)) (state_of reader) }
    ensures state { result ≡ reader_of (taken (room (lent_mut grid.old)) (state_of reader) fragment.now) }
    ensures kept { lent_mut grid.new ≡ kept (room (lent_mut grid.old)) (state_of reader) fragment.now (lent_mut grid.old) }
    ensures same { SameBuffers grid.old grid.new }
{
    let room = grid.room();
    let mut held = reader;
    for &byte in fragment {
        if held.code != 0 {
            return held;
        }
        keep_byte(held, byte, grid);
        held = held.next_byte(room, byte);
    }
    held
}

// Cell records that are whole and good, from a fragment's start: how many. It need not be all of them, as the bytes behind are
// taken in one by one.
fn take_records(reader: Reader, fragment: &[u8], grid: &mut GridMut<'_>) -> usize
    requires said { (0 < reader.columns) × (reader.columns ≤ most_cells) × (reader.rows ≤ most_cells) }
    requires room { reader.columns * reader.rows ≤ room (lent_mut grid.old) }
    ensures few { (result ≤ reader.columns * reader.rows - reader.cells) × (cell_bytes * result ≤ length fragment.now) }
    ensures state { taken 0 (between (head_of reader.columns reader.rows) reader.cells) (take (cell_bytes * result) fragment.now) ≡ between (head_of reader.columns reader.rows) (reader.cells + result) }
    ensures kept { lent_mut grid.new ≡ kept 0 (between (head_of reader.columns reader.rows) reader.cells) (take (cell_bytes * result) fragment.now) (lent_mut grid.old) }
    ensures same { SameBuffers grid.old grid.new }
{
    let first = reader.cells as usize;
    let left = reader.count().saturating_sub(first);
    let most = left.min(fragment.len() / CELL_BYTES);
    for i in 0..most {
        if !is_marked(fragment, CELL_BYTES * i) {
            return i;
        }
        grid.save_cell(first + i, get_cell(fragment, CELL_BYTES * i));
    }
    most
}

// A fragment whose whole records are taken in at once where it starts with one.
fn take_on(reader: Reader, fragment: &[u8], grid: &mut GridMut<'_>) -> Reader
    requires { Settled reader × Fits (room (lent_mut grid.old)) (state_of reader) }
    ensures state { result ≡ reader_of (taken (room (lent_mut grid.old)) (state_of reader) fragment.now) }
    ensures kept { lent_mut grid.new ≡ kept (room (lent_mut grid.old)) (state_of reader) fragment.now (lent_mut grid.old) }
    ensures same { SameBuffers grid.old grid.new }
{
    if !reader.at_a_cell() {
        return take_bytes(reader, fragment, grid);
    }
    let whole = take_records(reader, fragment, grid);
    let last = between(0, reader.columns, reader.rows, reader.cells + whole as u32);
    take_bytes(last, &fragment[CELL_BYTES * whole..], grid)
}

// A fragment: the bytes that complete a record begun, then the rest.
pub(crate) fn take_fragment(reader: Reader, fragment: &[u8], grid: &mut GridMut<'_>) -> Reader
    requires { Settled reader × (reader.code ≡ 0) × Fits (room (lent_mut grid.old)) (state_of reader) }
    ensures state { result ≡ reader_of (taken (room (lent_mut grid.old)) (state_of reader) fragment.now) }
    ensures kept { lent_mut grid.new ≡ kept (room (lent_mut grid.old)) (state_of reader) fragment.now (lent_mut grid.old) }
    ensures same { SameBuffers grid.old grid.new }
{
    let ahead = reader.missing();
    if fragment.len() <= ahead {
        return take_bytes(reader, fragment, grid);
    }
    let (front, rest) = fragment.split_at(ahead);
    let first = take_bytes(reader, front, grid);
    take_on(first, rest, grid)
}
