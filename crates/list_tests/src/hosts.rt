//! What no clause says: that calls succeed, that calls which are to fail do, and what the system does.
use ith_host::{
    FaultCounter, Gate, Got, Host, MemHost, OpenGate, OsHost, Printed, Put, read_to_limit,
    write_to_end,
};
use std::alloc::{AllocError, Global};
use std::collections::BTreeMap;
use std::fs;
use std::io::{self, ErrorKind, Read, Write};
use std::test::Fail;

/// A source that gives at most `step` bytes at once, and fails when `fails_at` of its bytes remain.
#[derive(Drop)]
struct Source<'a> {
    left: &'a [u8],
    step: usize,
    fails_at: usize,
}

impl Read for Source<'_> {
    fn read(&mut self, buf: &mut [u8]) -> io::Result<usize> {
        if self.left.len() == self.fails_at {
            return Err(io::Error::from(ErrorKind::Other));
        }
        let count = self.left.len().min(self.step).min(buf.len());
        let (taken, left) = self.left.split_at(count);
        buf[..count].copy_from_slice(taken);
        self.left = left;
        Ok(count)
    }
}

/// A sink that takes at most `step` bytes at once, and fails once it took `fails_at` bytes.
#[derive(Drop)]
struct Sink {
    taken: usize,
    step: usize,
    fails_at: usize,
}

impl Write for Sink {
    fn write(&mut self, buf: &[u8]) -> io::Result<usize> {
        if self.taken >= self.fails_at {
            return Err(io::Error::from(ErrorKind::Other));
        }
        let count = buf.len().min(self.step);
        self.taken = self.taken.saturating_add(count);
        Ok(count)
    }

    fn flush(&mut self) -> io::Result<()> {
        Ok(())
    }
}

/// A host with the file `a` of three bytes, of which these calls fail.
fn host_with(alloc: Global, failing: &[u64], part: u64) -> Result<MemHost, AllocError> {
    let mut files = BTreeMap::new(alloc);
    let content = Vec::from_slice(alloc, b"one")?;
    files.insert(String::from_str(alloc, "a")?, content)?;
    Ok(MemHost::new(alloc, files, Vec::from_slice(alloc, failing)?, part))
}

/// Whether a file is read with this answer, and gives these bytes.
fn gives(alloc: Global, host: &mut impl Host, file: (&str, u64), want: Got, bytes: &[u8]) -> bool {
    let (name, limit) = file;
    let mut read = Vec::new(alloc);
    host.read(name, limit, &mut read) == want && read.as_slice() == bytes
}

/// Whether bytes are written into a file of a host in memory.
fn keeps(host: &mut MemHost, name: &str, bytes: &[u8]) -> bool {
    let written = host.write(name, bytes) == Put::Ok;
    match host.file(name) {
        Some(content) => written && content == bytes,
        None => false,
    }
}

/// Whether texts are printed one after the other, and a complaint ends with a newline.
fn prints(host: &mut MemHost) -> bool {
    let printed = host.print(b"x") == Printed::Ok && host.print(b"yz") == Printed::Ok;
    host.complain(b"words: none");
    printed
        && host.printed() == b"xyz".as_slice()
        && host.complained() == b"words: none\n".as_slice()
}

#[test]
fn a_host_in_memory_works(rt: HostRuntime) -> Result<(), AllocError> {
    let alloc = rt.alloc();
    let mut host = host_with(alloc, &[], 0)?;
    assert!(rt; gives(alloc, &mut host, ("a", 2), Got::TooLong, b""));
    assert!(rt; gives(alloc, &mut host, ("a", 3), Got::Ok, b"one"));
    assert!(rt; keeps(&mut host, "b", b"two"));
    assert!(rt; keeps(&mut host, "a", b"three"));
    assert!(rt; prints(&mut host));
    OpenGate.enter(0, 0);
    Ok(())
}

/// The number of the call that fails, what a read, a write and a print answer, and what is printed.
type Fault = (u64, Got, Put, Printed, &'static [u8]);

const FAULTS: [Fault; 4] = [
    (0, Got::Failed, Put::Ok, Printed::Ok, b"xyz"),
    (1, Got::Ok, Put::Failed, Printed::Ok, b"xyz"),
    (2, Got::Ok, Put::Ok, Printed::Failed, b"xy"),
    (3, Got::Ok, Put::Ok, Printed::Ok, b"xyz"),
];

/// Whether only the named one of a read, a write and a print fails, and the others succeed.
fn fails_alone(alloc: Global, fault: &Fault) -> Result<bool, AllocError> {
    let (number, got, put, printed, text) = *fault;
    let mut host = host_with(alloc, &[number], 2)?;
    let kept = if got == Got::Ok {
        b"one".as_slice()
    } else {
        b""
    };
    let read = gives(alloc, &mut host, ("a", 100), got, kept);
    let written = host.write("a", b"two") == put;
    let there = host.file("a").is_some() == (put == Put::Ok);
    let shown = host.print(b"xyz") == printed;
    Ok(read && written && there && shown && host.printed() == text)
}

#[test]
fn each_call_that_is_named_fails(rt: HostRuntime) -> Result<(), AllocError> {
    for (number, fault) in FAULTS.iter().enumerate() {
        assert!(rt; fails_alone(rt.alloc(), fault)?, "at {number}");
    }
    Ok(())
}

/// The bytes of each transfer.
const SEVEN: &[u8] = b"sevenby";

/// Whether a source is read with this answer: all of it or nothing is kept, and a failure is counted.
fn is_read(alloc: Global, inner: Source<'_>, limit: u64, want: Got) -> bool {
    let mut source = FaultCounter::new(inner, 5);
    let mut bytes = Vec::new(alloc);
    let got = read_to_limit(&mut source, limit, &mut bytes);
    let kept = if want == Got::Ok { SEVEN } else { b"" };
    let faults = if want == Got::Failed { 6 } else { 5 };
    got == want && bytes.as_slice() == kept && source.faults() == faults
}

#[test]
fn a_source_is_read_to_its_end(rt: HostRuntime) {
    let never = usize::MAX;
    for (step, fails_at, limit, want) in [
        (1, never, 7, Got::Ok),
        (3, never, 7, Got::Ok),
        (100, never, 7, Got::Ok),
        (2, never, 6, Got::TooLong),
        (100, never, 0, Got::TooLong),
        (2, 3, 7, Got::Failed),
        (2, 7, 7, Got::Failed),
    ] {
        let inner = Source {
            left: SEVEN,
            step,
            fails_at,
        };
        assert!(rt;
            is_read(rt.alloc(), inner, limit, want),
            "at {step} {fails_at} {limit}"
        );
    }
}

/// Whether bytes are written into a sink with this answer: a failure is counted.
fn is_written(inner: Sink, want: bool) -> bool {
    let mut sink = FaultCounter::new(inner, 5);
    let written = write_to_end(&mut sink, SEVEN);
    let faults = if want { 5 } else { 6 };
    written == want && sink.faults() == faults
}

#[test]
fn a_sink_takes_bytes_to_their_end(rt: HostRuntime) {
    let never = usize::MAX;
    for (step, fails_at, want) in [
        (1, never, true),
        (3, never, true),
        (2, 6, false),
        (0, never, false),
    ] {
        let inner = Sink {
            taken: 0,
            step,
            fails_at,
        };
        assert!(rt; is_written(inner, want), "at {step} {fails_at}");
    }
}

#[test]
fn the_system_keeps_a_file(rt: HostRuntime) -> Result<(), Fail> {
    let name = "/tmp/ith_host_keeps_a_file";
    let alloc = rt.alloc();
    let mut host = OsHost::new(&rt);
    let long = vec![in alloc; 7u8; 10000]?;
    assert!(rt; host.write(name, &long) == Put::Ok && host.write("/tmp", b"x") == Put::Failed);
    assert!(rt; gives(alloc, &mut host, (name, 9999), Got::TooLong, b""));
    assert!(rt; gives(alloc, &mut host, (name, 10000), Got::Ok, &long));
    assert!(rt; gives(alloc, &mut host, ("/tmp", 10), Got::Failed, b""));
    fs::remove_file(&rt, name)?;
    assert!(rt; gives(alloc, &mut host, (name, 10), Got::Failed, b""));
    assert!(rt; host.print(b"printed\n") == Printed::Ok);
    host.complain(b"complained");
    Ok(())
}
