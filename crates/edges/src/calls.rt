use crate::cases::{Buffer, Call, Case};
use crate::changes::{Cells, report};
use inter::calls::lockdapple_frame_run;
use steps::calls::lockdapple_superblock_step;

// What the case lends of a buffer: its first elements, or all where there are no more.
fn lent<T>(all: &[T], case: Case, buffer: Buffer) -> &[T] {
    &all[..case.length(buffer).min(all.len())]
}

fn lent_mut<T>(all: &mut [T], case: Case, buffer: Buffer) -> &mut [T] {
    let n = case.length(buffer).min(all.len());
    &mut all[..n]
}

fn run(case: Case, flat: &[u8], list: &[u16], prev: &Cells, cells: &mut Cells) -> u32 {
    lockdapple_frame_run(
        case.width,
        case.height,
        lent(flat, case, Buffer::Cur),
        lent(flat, case, Buffer::CurHalf),
        lent(flat, case, Buffer::CurQuarter),
        lent(flat, case, Buffer::Reference),
        lent(flat, case, Buffer::RefHalf),
        lent(flat, case, Buffer::RefQuarter),
        case.present(),
        lent(&prev.rows, case, Buffer::PrevRows),
        lent(&prev.cols, case, Buffer::PrevCols),
        lent(&prev.sads, case, Buffer::PrevSads),
        list,
        lent_mut(&mut cells.rows, case, Buffer::Rows),
        lent_mut(&mut cells.cols, case, Buffer::Cols),
        lent_mut(&mut cells.sads, case, Buffer::Sads),
    )
}

fn step(level: usize, case: Case, flat: &[u8], prev: &Cells, cells: &mut Cells) -> u32 {
    lockdapple_superblock_step(
        case.width,
        case.height,
        level,
        0,
        lent(flat, case, Buffer::Cur),
        lent(flat, case, Buffer::CurHalf),
        lent(flat, case, Buffer::CurQuarter),
        lent(flat, case, Buffer::Reference),
        lent(flat, case, Buffer::RefHalf),
        lent(flat, case, Buffer::RefQuarter),
        case.present(),
        lent(&prev.rows, case, Buffer::PrevRows),
        lent(&prev.cols, case, Buffer::PrevCols),
        lent(&prev.sads, case, Buffer::PrevSads),
        lent_mut(&mut cells.rows, case, Buffer::Rows),
        lent_mut(&mut cells.cols, case, Buffer::Cols),
        lent_mut(&mut cells.sads, case, Buffer::Sads),
    )
}

// Makes the case's call on a grid of its own, and prints its line. The call is a value and no closure, since the line says
// which it is.
pub(crate) fn tried(rt: &impl Print, case: Case, flat: &[u8], list: &[u16]) {
    case.say(rt);
    let prev = Cells::new(0, 0);
    let mut cells = Cells::before();
    let code = match case.call {
        Call::Run => run(case, flat, list, &prev, &mut cells),
        Call::Step(level) => step(level, case, flat, &prev, &mut cells),
    };
    report(rt, code, case, &cells);
}
