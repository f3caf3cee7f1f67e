//! A schedule as a report prints it.

/// The tokens of a schedule, which the word `schedule` may precede.
pub fn tokens_of(text: &[u8]) -> &[u8] {
    match text.strip_prefix(b"schedule".as_slice()) {
        Some([]) => &[],
        Some(rest @ [b' ' | b'\n', ..]) => rest,
        _ => text,
    }
}
