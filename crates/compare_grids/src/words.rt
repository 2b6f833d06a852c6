use passes::files::Checked;
use passes::words::{say, say_meaning, say_name, say_refusal};
use refusal::kinds::Refusal;

// Which of two files was refused, the first one first, and what the refusal means.
pub(crate) fn say_refused(rt: &HostRuntime, first: Checked, second: Checked) {
    match (first.extent, second.extent) {
        (Err(refusal), _) => say_meaning(rt, 1, refusal.number()),
        (_, Err(refusal)) => say_meaning(rt, 2, refusal.number()),
        _ => {
            say_name(rt, 1);
            say(rt, b" and ");
            say_name(rt, 2);
            say_refusal(rt, Refusal::Shapes);
        }
    }
}
