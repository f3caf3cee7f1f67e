//! Command lines, run with a host in memory.

use ith_host::{Gate, MemHost, OpenGate};
use ith_top::top;
use std::alloc::{AllocError, Global};
use std::collections::BTreeMap;
use std::sync::Wait;
use std::thread::Threads;
use worked_guests::guests::{HI, PAIR};
use worked_guests::{Guest, file_of};

/// The executable of a guest.
fn executable(alloc: Global, guest: Guest) -> Result<Vec<u8>, AllocError> {
    match file_of(alloc, guest)? {
        Some(file) => Ok(file),
        None => Ok(Vec::new(alloc)),
    }
}

/// An input of zeros, but for a 5 at its beginning and another byte at the beginning of its second page.
pub(super) fn two_pages(alloc: Global, second: u8) -> Result<Vec<u8>, AllocError> {
    let mut input = vec![in alloc; 0u8; 4100]?;
    input[0] = 5;
    input[4096] = second;
    Ok(input)
}

/// Adds a file under its name.
pub(super) fn put(
    alloc: Global,
    files: &mut BTreeMap<String, Vec<u8>>,
    name: &str,
    bytes: Vec<u8>,
) -> Result<(), AllocError> {
    files.insert(String::from_str(alloc, name)?, bytes)?;
    Ok(())
}

/// Two guests, their inputs, an edit list and a schedule, under their names.
pub(super) fn guest_files(alloc: Global) -> Result<BTreeMap<String, Vec<u8>>, AllocError> {
    let mut files = BTreeMap::new(alloc);
    put(alloc, &mut files, "hi", executable(alloc, HI)?)?;
    put(alloc, &mut files, "none", Vec::new(alloc))?;
    put(
        alloc,
        &mut files,
        "order",
        Vec::from_slice(alloc, b"0+ 0=")?,
    )?;
    put(alloc, &mut files, "pair", executable(alloc, PAIR)?)?;
    put(alloc, &mut files, "pages", two_pages(alloc, 7)?)?;
    put(
        alloc,
        &mut files,
        "eight",
        Vec::from_slice(alloc, b"set 4096 08")?,
    )?;
    Ok(files)
}

/// A host that has these files.
pub(super) fn host_with_guests(alloc: Global) -> Result<MemHost, AllocError> {
    Ok(MemHost::new(alloc, guest_files(alloc)?, Vec::new(alloc), 0))
}

/// The exit status of a command line whose workers pass a gate.
pub(super) fn status_at<R: Threads + Wait + Sync, G: Gate + Sync>(
    rt: &R,
    alloc: Global,
    host: &mut MemHost,
    line: &str,
    gate: &G,
) -> Result<u8, AllocError> {
    let mut words = Vec::new(alloc);
    for word in line.split_whitespace() {
        words.push(String::from_str(alloc, word)?)?;
    }
    Ok(top(rt, alloc, &words, host, gate))
}

/// The exit status of a command line.
pub(super) fn status_of<R: Threads + Wait + Sync>(
    rt: &R,
    alloc: Global,
    host: &mut MemHost,
    line: &str,
) -> Result<u8, AllocError> {
    status_at(rt, alloc, host, line, &OpenGate)
}
