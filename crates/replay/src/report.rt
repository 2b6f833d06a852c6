use crate::tally::Tally;
use print::{labelled, text};

pub(crate) fn cannot_read(rt: &impl Print, file: &[u8]) {
    text(rt, b"cannot read ");
    text(rt, file);
    text(rt, b"\n");
}

pub(crate) fn equal_of(rt: &impl Print, what: &[u8], tally: Tally) {
    text(rt, what);
    labelled(rt, b" ", tally.equal);
    labelled(rt, b" of ", tally.read);
    text(rt, b"\n");
}

fn at_line(rt: &impl Print, what: &[u8], file: &[u8], line: Option<u64>) {
    if let Some(line) = line {
        text(rt, what);
        text(rt, file);
        labelled(rt, b" ", line);
        text(rt, b"\n");
    }
}

pub(crate) fn report(rt: &impl Print, file: &[u8], tally: Tally) {
    at_line(rt, b"malformed ", file, tally.malformed);
    at_line(rt, b"differs ", file, tally.differs);
    equal_of(rt, file, tally);
}
