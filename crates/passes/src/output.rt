use crate::words::or_say;
use listing::lines::{LINE, put_refused};
use text::writer::Writer;

// Lines that were put; none, with words, where they can't be written.
pub fn write(rt: &HostRuntime, lines: &[u8]) -> Option<()> {
    or_say(rt, b"standard output", rt.write_all(lines))
}

// The only line of a refusal. A number, since the comparison of two files answers one.
pub fn write_refused(rt: &HostRuntime, number: u32) {
    let mut out = [0u8; LINE];
    let mut w = Writer::new(&mut out);
    put_refused(number, &mut w);
    let _ = write(rt, w.text());
}
