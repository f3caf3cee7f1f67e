//! One failing call of the host: what was printed before it, what becomes of the memo, and the status.

use super::lines::{guest_files, host_with_guests, put, status_of};
use super::report_text::text_from;
use ith_host::MemHost;
use std::alloc::{AllocError, Global};
use std::process::Abort;
use std::sync::Wait;
use std::test::Fail;
use std::thread::Threads;

/// The command line with one worker, and with four.
const LINES: [&str; 2] = [
    "ithreads run pair pages eight --memo m --workers 1",
    "ithreads run pair pages eight --memo m --workers 4",
];

/// The content of the memo's file before.
const BEFORE: &[u8] = b"as before";

/// A host with a file of the memo's name, of which one call fails. A failing print still prints `part` bytes.
fn host_failing(alloc: Global, call: u64, part: u64) -> Result<MemHost, AllocError> {
    let mut files = guest_files(alloc)?;
    put(alloc, &mut files, "m", Vec::from_slice(alloc, BEFORE)?)?;
    Ok(MemHost::new(alloc, files, Vec::from_slice(alloc, &[call])?, part))
}

/// Runs a command line with a host of which one call fails. Returns the host and the exit status.
fn failed<R: Threads + Wait + Sync>(
    rt: &R,
    alloc: Global,
    line: &str,
    call: u64,
    part: u64,
) -> Result<(MemHost, u8), AllocError> {
    let mut host = host_failing(alloc, call, part)?;
    let status = status_of(rt, alloc, &mut host, line)?;
    Ok((host, status))
}

/// The complaint about each read that fails.
const READS: [&[u8]; 3] = [b"read pair\n", b"read pages\n", b"read eight\n"];

#[test]
fn a_failed_read_prints_nothing(rt: HostRuntime) -> Result<(), Fail> {
    for line in LINES {
        for (call, complaint) in READS.into_iter().enumerate() {
            let (host, status) = failed(&rt, rt.alloc(), line, call as u64, 0)?;
            assert!(rt;
                status == 6 && host.complained() == complaint,
                "call {call} of {line}"
            );
            assert!(rt; host.printed().is_empty() && host.file("m") == Some(BEFORE));
        }
    }
    Ok(())
}

/// All that is printed with one worker, and the lengths of the reports of both rounds in it.
fn by_one_worker<R: Threads + Wait + Sync>(
    rt: &R,
    alloc: Global,
) -> Result<(Vec<u8>, [usize; 2]), AllocError> {
    let mut host = host_with_guests(alloc)?;
    status_of(rt, alloc, &mut host, LINES[0])?;
    let second = text_from(host.printed(), b"round 1\n").len();
    let first = host.printed().len().saturating_sub(second);
    Ok((Vec::from_slice(alloc, host.printed())?, [first, second]))
}

/// Compares what is printed with one worker if a print fails: the texts before it, and `part` bytes of its own.
fn compare_print<R: Threads + Wait + Sync + Abort>(
    rt: &R,
    alloc: Global,
    call: u64,
    part: usize,
    printed: &[u8],
) -> Result<(), Fail> {
    let (host, status) = failed(rt, alloc, LINES[0], call, part as u64)?;
    assert!(rt; status == 7 && host.complained() == b"write output\n".as_slice());
    assert!(rt; host.printed() == printed, "call {call} and part {part}");
    assert!(rt; host.file("m") == Some(BEFORE));
    Ok(())
}

#[test]
fn a_failed_print_leaves_a_part(rt: HostRuntime) -> Result<(), Fail> {
    let alloc = rt.alloc();
    let (all, [first, second]) = by_one_worker(&rt, alloc)?;
    for part in [0, 1, first.saturating_sub(1)] {
        compare_print(&rt, alloc, 3, part, &all[..part.min(all.len())])?;
    }
    for part in [0, 1, second.saturating_sub(1)] {
        let end = first.saturating_add(part).min(all.len());
        compare_print(&rt, alloc, 4, part, &all[..end])?;
    }
    Ok(())
}

/// How the report of each round begins, with any number of workers.
const BEGINS: [&[u8]; 2] = [
    b"round 0\nend exit 0\nsteps 12\nreused 0\nexecuted 12\ninstructions 51\nby ",
    b"round 1\nend exit 0\nsteps 12\nreused ",
];

/// Whether the first `whole` reports were printed whole, and `part` bytes of the next one, at most one.
fn has_printed(host: &MemHost, whole: usize, part: usize) -> bool {
    let second = text_from(host.printed(), b"round 1\n");
    match whole {
        0 => BEGINS[0].starts_with(host.printed()) && host.printed().len() == part,
        1 if part == 0 => host.printed().starts_with(BEGINS[0]) && host.printed().ends_with(b"\n"),
        1 => host.printed().starts_with(BEGINS[0]) && host.printed().ends_with(b"\nr"),
        _ => host.printed().starts_with(BEGINS[0]) && second.starts_with(BEGINS[1]),
    }
}

#[test]
fn a_failed_print_of_four_workers_leaves_a_part(rt: HostRuntime) -> Result<(), Fail> {
    for (call, part) in [(3, 0), (3, 1), (4, 0), (4, 1)] {
        let (host, status) = failed(&rt, rt.alloc(), LINES[1], call, part as u64)?;
        assert!(rt; status == 7 && host.complained() == b"write output\n".as_slice());
        assert!(rt;
            has_printed(&host, if call == 3 { 0 } else { 1 }, part),
            "call {call}"
        );
        assert!(rt; host.file("m") == Some(BEFORE));
    }
    Ok(())
}

#[test]
fn a_failed_write_leaves_no_memo(rt: HostRuntime) -> Result<(), Fail> {
    let alloc = rt.alloc();
    let (all, _) = by_one_worker(&rt, alloc)?;
    let (host, status) = failed(&rt, alloc, LINES[0], 5, 0)?;
    assert!(rt; status == 7 && host.complained() == b"write m\n".as_slice());
    assert!(rt; host.printed() == all.as_slice() && host.file("m").is_none());
    let (host, status) = failed(&rt, alloc, LINES[1], 5, 0)?;
    assert!(rt; status == 7 && host.complained() == b"write m\n".as_slice());
    assert!(rt; has_printed(&host, 2, 0) && host.file("m").is_none());
    Ok(())
}

/// Command lines that print one text: the number of the call that prints it, and how the text begins.
const TEXTS: [(&str, u64, &[u8]); 2] = [
    ("ithreads replay hi none order", 3, b"repla"),
    ("ithreads gen 7 --workers 1", 0, b"gen 7"),
];

#[test]
fn a_failed_print_of_one_text_leaves_a_part(rt: HostRuntime) -> Result<(), Fail> {
    for (line, call, part) in TEXTS {
        let (host, status) = failed(&rt, rt.alloc(), line, call, part.len() as u64)?;
        assert!(rt; status == 7 && host.complained() == b"write output\n".as_slice());
        assert!(rt; host.printed() == part, "at {line}");
    }
    Ok(())
}
