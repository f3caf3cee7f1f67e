//! Transfers of whole files through a source or a sink that gives or takes some bytes at a time.

ghost use Rattle.std.specs.Prelude.{◌≡◌, ◌≢◌, ◌+◌, ◌≤◌, ◌<◌, [], false, true, length, IfOk, IfErr, IfSome};
ghost use Rattle.std.specs.Io.{ReadsAtMost, WritesAtMost};
ghost use Rattle.std.specs.Io.KnownBytes.{Appends, ReadConsumes, WriteAppends};
ghost use Rattle.ith_host.specs.Transfer.{TakesAtMost};
ghost use Rattle.ith_host.specs.World.{Rose};

use crate::host::Got;
use std::io::{self, Read, Write};

/// The number of bytes that are requested at once.
const PIECE: usize = 4096;

/// A source or a sink whose errors are counted.
#[derive(Drop)]
pub struct FaultCounter<S> {
    inner: S,
    faults: u64,
}

impl<S> FaultCounter<S> {
    /// Counts the errors of a source or a sink, starting from this number.
    pub fn new(inner: S, faults: u64) -> Self
        ensures inner { result.inner ≡ inner }
        ensures faults { result.faults ≡ faults }
    {
        FaultCounter { inner, faults }
    }

    /// The number that it started from, and the errors since.
    pub fn faults(&self) -> u64
        ensures { result ≡ self.now.faults }
    {
        self.faults
    }
}

impl<S: Read> FaultCounter<S> {
    /// Reads as the source does, and counts its error.
    fn read(&mut self, piece: &mut [u8]) -> io::Result<usize>
        ensures bound { ReadsAtMost result piece.new }
        ensures bytes { ReadConsumes (S.remaining self.old.inner)
            (S.remaining self.new.inner) result piece.new }
        ensures failed { IfErr result (λ _. Rose self.old.faults self.new.faults) }
        ensures quiet { IfOk result (λ _. self.new.faults ≡ self.old.faults) }
        ensures counts { self.old.faults ≤ self.new.faults }
    {
        let got = self.inner.read(piece);
        if got.is_err() {
            self.faults = self.faults.saturating_add(1);
        }
        got
    }
}

impl<S: Write> FaultCounter<S> {
    /// Writes as the sink does, and counts its error.
    fn write(&mut self, piece: &[u8]) -> io::Result<usize>
        ensures bound { WritesAtMost result piece.now }
        ensures bytes { WriteAppends (S.contents self.old.inner)
            (S.contents self.new.inner) result piece.now }
        ensures failed { IfErr result (λ _. Rose self.old.faults self.new.faults) }
        ensures quiet { IfOk result (λ _. self.new.faults ≡ self.old.faults) }
        ensures counts { self.old.faults ≤ self.new.faults }
    {
        let put = self.inner.write(piece);
        if put.is_err() {
            self.faults = self.faults.saturating_add(1);
        }
        put
    }
}

/// Reads a source to its end, unless it gives more bytes than the limit.
///
/// A source that gives no bytes is at its end. Any error of the source ends the call as `Failed`, and nothing else
/// does. At most `limit + 1` bytes are taken; more than `limit` are `TooLong`, if there is memory for them. After any
/// result but `Ok` the vector is empty.
pub fn read_to_limit<S: Read>(source: &mut FaultCounter<S>, limit: u64, into: &mut Vec<u8>) -> Got
    requires { into.old.items ≡ [] }
    ensures all { result ≡ Got.Ok
        → IfSome (S.remaining source.old.inner) (λ content. content ≡ into.new.items) }
    ensures within { result ≡ Got.Ok → length into.new.items ≤ limit }
    ensures failed { result ≡ Got.Failed → Rose source.old.faults source.new.faults }
    ensures quiet { result ≢ Got.Failed → source.new.faults ≡ source.old.faults }
    ensures too_long { result ≡ Got.TooLong
        → IfSome (S.remaining source.old.inner) (λ content. limit < length content) }
    ensures emptied { result ≢ Got.Ok → into.new.items ≡ [] }
    ensures counts { source.old.faults ≤ source.new.faults }
    ensures taken { TakesAtMost (limit + 1) (S.remaining source.old.inner)
        (S.remaining source.new.inner) }
{
    let mut piece = [0u8; PIECE];
    loop {
        let room = room_for(limit, into.len());
        match source.read(&mut piece[..room]) {
            Ok(0) => return Got::Ok,
            Ok(count) => {
                if into.extend_from_slice(&piece[..count]).is_err() {
                    into.clear();
                    return Got::NoMemory;
                }
            }
            Err(_) => {
                into.clear();
                return Got::Failed;
            }
        }
        if into.len() as u64 > limit {
            into.clear();
            return Got::TooLong;
        }
    }
}

/// How many bytes are requested: a piece, but with the bytes already taken at most one more than the limit.
fn room_for(limit: u64, taken: usize) -> usize
    requires { taken ≤ limit }
    ensures some { 0 < result }
    ensures within { result ≤ PIECE }
    ensures no_more { taken + result ≤ limit + 1 }
{
    let left = (limit - taken as u64).saturating_add(1);
    if left < PIECE as u64 {
        left as usize
    } else {
        PIECE
    }
}

/// Writes all of the bytes to a sink, and returns whether it took them.
///
/// The result is `false` only if an error of the sink ended the call, or the sink took nothing of a piece that isn't
/// empty, which counts as an error.
pub fn write_to_end<S: Write>(sink: &mut FaultCounter<S>, bytes: &[u8]) -> bool
    ensures all { result ≡ true
        → Appends (S.contents sink.old.inner) (S.contents sink.new.inner) bytes.now }
    ensures failed { result ≡ false → Rose sink.old.faults sink.new.faults }
    ensures quiet { result ≡ true → sink.new.faults ≡ sink.old.faults }
    ensures counts { sink.old.faults ≤ sink.new.faults }
{
    let mut done = 0;
    while done < bytes.len() {
        match sink.write(&bytes[done..]) {
            Ok(0) => {
                sink.faults = sink.faults.saturating_add(1);
                return false;
            }
            Err(_) => return false,
            Ok(count) => done += count,
        }
    }
    true
}
