//! Parts of a report, taken from its text.

use std::alloc::{AllocError, Global};

/// The rest of the first line that begins with these bytes.
pub(super) fn line_after<'t>(text: &'t [u8], begins: &[u8]) -> &'t [u8] {
    for line in text.split(|byte| *byte == b'\n') {
        if let Some(rest) = line.strip_prefix(begins) {
            return rest;
        }
    }
    &[]
}

/// The text from the first occurrence of these bytes on.
pub(super) fn text_from<'t>(text: &'t [u8], begins: &[u8]) -> &'t [u8] {
    let mut rest = text;
    for _ in 0..text.len() {
        if rest.starts_with(begins) {
            return rest;
        }
        rest = rest.get(1..).unwrap_or(&[]);
    }
    &[]
}

/// How many steps each worker made, by a report.
pub(super) fn worker_steps(alloc: Global, report: &[u8]) -> Result<Vec<u64>, AllocError> {
    let mut worker_steps = Vec::new(alloc);
    for word in str::from_utf8(line_after(report, b"by "))
        .unwrap_or("")
        .split_whitespace()
    {
        worker_steps.push(word.parse::<u64>().unwrap_or(0))?;
    }
    Ok(worker_steps)
}

/// The threads of the schedule in a report, entry by entry.
pub(super) fn schedule(alloc: Global, report: &[u8]) -> Result<Vec<u8>, AllocError> {
    let mut threads = Vec::new(alloc);
    let line = str::from_utf8(line_after(report, b"schedule ")).unwrap_or("");
    for word in line.split_whitespace() {
        let digits = word
            .strip_suffix('+')
            .or(word.strip_suffix('='))
            .unwrap_or("");
        threads.push(digits.parse::<u8>().unwrap_or(255))?;
    }
    Ok(threads)
}
