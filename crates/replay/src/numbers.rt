// A number: one digit or more, and nothing else, so no `parse`, which takes a plus. There is none where 64 bits don't hold it.
pub(crate) fn natural(field: &[u8]) -> Option<usize> {
    if field.is_empty() {
        return None;
    }
    let mut value: usize = 0;
    for b in field {
        if !b.is_ascii_digit() {
            return None;
        }
        value = value.checked_mul(10)?.checked_add((*b - b'0') as usize)?;
    }
    Some(value)
}

// A component, a minus before it where it is negative.
pub(crate) fn component(field: &[u8]) -> Option<i16> {
    match field.strip_prefix(b"-") {
        Some(size) => i16::try_from(-i64::try_from(natural(size)?).ok()?).ok(),
        None => i16::try_from(natural(field)?).ok(),
    }
}
