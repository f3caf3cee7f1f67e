//! A host in memory, of which chosen calls fail.

ghost use Rattle.std.specs.Prelude.{◌≡◌, ◌≢◌, ◌⊎◌, ◌+◌, ◌-◌, ◌^◌, ◌≤◌, ◌<◌, ◌∷◌, ◌++◌, true, None, Some, [], min, length, take, IfSome, option_copied};
ghost use Rattle.std.specs.Io.KnownBytes.{Appends};
ghost use Rattle.ith_host.specs.World.{World, Rose, NoneFell, Stays, StaysBut, AsksFor, AsksNothing, IsContent, Holds, PrintedSome};

use crate::asked::Asked;
use crate::host::{Got, Host, Printed, Put};
use std::alloc::Global;
use std::collections::BTreeMap;

/// A host in memory, for tests and for embedding: all that it holds is known.
///
/// Its calls of `read`, `write` and `print` are numbered from 0, and the ones that were named at its start fail.
#[derive(Drop)]
pub struct MemHost {
    alloc: Global,
    files: BTreeMap<String, Vec<u8>>,
    printed: Vec<u8>,
    complained: Vec<u8>,
    failing: Vec<u64>,
    part: u64,
    calls: u64,
    asked: Asked,
    read_faults: u64,
    write_faults: u64,
    print_faults: u64,
}

impl MemHost {
    ghost use Rattle.ith_host.specs.MemHost.{memory_world, files_of, fails_next, IsNumbered};

    /// A host with these files, of which the calls numbered in `failing` fail. Of a print that fails, the first `part`
    /// bytes are still printed.
    pub fn new(
        alloc: Global,
        files: BTreeMap<String, Vec<u8>>,
        failing: Vec<u64>,
        part: u64,
    ) -> Self
        ensures world { memory_world result ≡ record {
          is_stated = true;
          files = files_of files;
          printed = Some [];
          asked = [];
          read_faults = λ _. 0;
          write_faults = λ _. 0;
          print_faults = 0;
        } }
        ensures failing { result.failing ≡ failing }
        ensures part { result.part ≡ part }
        ensures calls { result.calls ≡ 0 }
        ensures complained { result.complained.items ≡ [] }
    {
        MemHost {
            alloc,
            files,
            printed: Vec::new(alloc),
            complained: Vec::new(alloc),
            failing,
            part,
            calls: 0,
            asked: Asked::none(),
            read_faults: 0,
            write_faults: 0,
            print_faults: 0,
        }
    }

    /// The content of a file, if there is one of this name and its last write didn't fail.
    pub fn file(&self, name: &str) -> Option<&[u8]>
        ensures { option_copied result ≡ (memory_world self.now).files name.now }
    {
        match self.files.get(name) {
            Some(content) => Some(content.as_slice()),
            None => None,
        }
    }

    /// All bytes that were printed.
    pub fn printed(&self) -> &[u8]
        ensures { (memory_world self.now).printed ≡ Some result.now }
    {
        self.printed.as_slice()
    }

    /// The lines that `complain` was given, each with a newline.
    pub fn complained(&self) -> &[u8]
        ensures { result.now ≡ self.now.complained.items }
    {
        self.complained.as_slice()
    }

    /// Numbers this call, and says whether it is one that fails.
    fn is_failing(&mut self) -> bool
        ensures said { result ≡ fails_next self.old }
        ensures numbered { IsNumbered self.old self.new }
        ensures others { self.new ≡ record self.old { calls = self.new.calls } }
    {
        let call = self.calls;
        self.calls = call.saturating_add(1);
        self.failing.contains(&call)
    }

    /// Counts a fault of reading.
    fn fail_read(&mut self) -> Got
        ensures answer { result ≡ Got.Failed }
        ensures not_fewer { self.old.read_faults ≤ self.new.read_faults }
        ensures count { self.new
            ≡ record self.old { read_faults = min (self.old.read_faults + 1) (2 ^ 64 - 1) } }
    {
        self.read_faults = self.read_faults.saturating_add(1);
        Got::Failed
    }
}

impl Host for MemHost {
    ghost use Rattle.ith_host.specs.MemHost.{memory_world, fails_next, IsNumbered};

    ghost world = { memory_world };

    /// A read that is named to fail is `Failed`, and so is one of a name without a file; no other is.
    fn read(&mut self, name: &str, limit: u64, into: &mut Vec<u8>) -> Got
        requires { into.old.items ≡ [] }
        ensures listed { fails_next self.old ≡ true → result ≡ Got.Failed }
        ensures absent { (memory_world self.old).files name.now ≡ None → result ≡ Got.Failed }
        ensures unlisted { result ≡ Got.Failed
            → (fails_next self.old ≡ true) ⊎ ((memory_world self.old).files name.now ≡ None) }
        ensures numbered { IsNumbered self.old self.new }
        ensures quiet { result ≢ Got.Failed → self.new.read_faults ≡ self.old.read_faults }
        ensures rest { self.new ≡ record self.old {
          calls = self.new.calls;
          asked = self.new.asked;
          read_faults = self.new.read_faults;
        } }
        ensures content { result ≡ Got.Ok
            → IsContent (memory_world self.old) name.now into.new.items }
        ensures within { result ≡ Got.Ok → length into.new.items ≤ limit }
        ensures failed { result ≡ Got.Failed
            → Rose ((memory_world self.old).read_faults name.now)
            ((memory_world self.new).read_faults name.now) }
        ensures too_long { result ≡ Got.TooLong
            → IfSome ((memory_world self.old).files name.now) (λ content. limit < length content) }
        ensures emptied { result ≢ Got.Ok → into.new.items ≡ [] }
        ensures asked { AsksFor (name.now ∷ []) (memory_world self.old) (memory_world self.new) }
        ensures stays { Stays (memory_world self.old) (memory_world self.new) }
        ensures counts { NoneFell (memory_world self.old) (memory_world self.new) }
    {
        self.asked.note(name.as_bytes());
        if self.is_failing() {
            return self.fail_read();
        }
        match self.file(name) {
            None => self.fail_read(),
            Some(content) => take_content(content, limit, into),
        }
    }

    /// A write that is named to fail is `Failed`, and no other is.
    fn write(&mut self, name: &str, bytes: &[u8]) -> Put
        ensures listed { fails_next self.old ≡ true → result ≡ Put.Failed }
        ensures unlisted { result ≡ Put.Failed → fails_next self.old ≡ true }
        ensures numbered { IsNumbered self.old self.new }
        ensures quiet { result ≢ Put.Failed → self.new.write_faults ≡ self.old.write_faults }
        ensures rest { self.new ≡ record self.old {
          calls = self.new.calls;
          files = self.new.files;
          write_faults = self.new.write_faults;
        } }
        ensures written { result ≡ Put.Ok → Holds (memory_world self.new) name.now bytes.now }
        ensures failed { result ≡ Put.Failed
            → Rose ((memory_world self.old).write_faults name.now)
            ((memory_world self.new).write_faults name.now) }
        ensures unstated { result ≡ Put.Failed → (memory_world self.new).files name.now ≡ None }
        ensures memory { result ≡ Put.NoMemory
            → Stays (memory_world self.old) (memory_world self.new) }
        ensures others { StaysBut name.now (memory_world self.old) (memory_world self.new) }
        ensures asked { AsksNothing (memory_world self.old) (memory_world self.new) }
        ensures counts { NoneFell (memory_world self.old) (memory_world self.new) }
    {
        if self.is_failing() {
            self.files.remove(name);
            self.write_faults = self.write_faults.saturating_add(1);
            return Put::Failed;
        }
        let (Ok(name), Ok(content)) = (
            String::from_str(self.alloc, name),
            Vec::from_slice(self.alloc, bytes),
        ) else {
            return Put::NoMemory;
        };
        match self.files.insert(name, content) {
            Ok(_) => Put::Ok,
            Err(_) => Put::NoMemory,
        }
    }

    /// A print that is named to fail is `Failed` after its first `part` bytes were printed, unless there is no memory
    /// for them; no other is.
    fn print(&mut self, bytes: &[u8]) -> Printed
        ensures listed { fails_next self.old ≡ true
            → (result ≡ Printed.Failed) ⊎ (result ≡ Printed.NoMemory) }
        ensures unlisted { result ≡ Printed.Failed → fails_next self.old ≡ true }
        ensures went_out { result ≡ Printed.Failed
            → self.new.printed.items ≡ self.old.printed.items ++ take self.old.part bytes.now }
        ensures numbered { IsNumbered self.old self.new }
        ensures quiet { result ≢ Printed.Failed → self.new.print_faults ≡ self.old.print_faults }
        ensures rest { self.new ≡ record self.old {
          calls = self.new.calls;
          printed = self.new.printed;
          print_faults = self.new.print_faults;
        } }
        ensures printed { result ≡ Printed.Ok
            → Appends (memory_world self.old).printed (memory_world self.new).printed bytes.now }
        ensures failed { result ≡ Printed.Failed
            → Rose (memory_world self.old).print_faults (memory_world self.new).print_faults }
        ensures part { result ≡ Printed.Failed
            → PrintedSome (memory_world self.old) (memory_world self.new) bytes.now }
        ensures memory { result ≡ Printed.NoMemory
            → Stays (memory_world self.old) (memory_world self.new) }
        ensures is_stated { (memory_world self.new).is_stated ≡ (memory_world self.old).is_stated }
        ensures files { (memory_world self.new).files ≡ (memory_world self.old).files }
        ensures asked { AsksNothing (memory_world self.old) (memory_world self.new) }
        ensures counts { NoneFell (memory_world self.old) (memory_world self.new) }
    {
        let fails = self.is_failing();
        let out = if fails {
            front(bytes, self.part)
        } else {
            bytes
        };
        if self.printed.extend_from_slice(out).is_err() {
            return Printed::NoMemory;
        }
        if fails {
            self.print_faults = self.print_faults.saturating_add(1);
            return Printed::Failed;
        }
        Printed::Ok
    }

    /// The line and a newline are kept, as far as there is memory for them.
    fn complain(&mut self, line: &[u8])
        ensures kept { (self.new.complained.items ≡ self.old.complained.items)
            ⊎ ((self.new.complained.items ≡ self.old.complained.items ++ line.now)
            ⊎ (self.new.complained.items ≡ self.old.complained.items ++ line.now ++ 10 ∷ [])) }
        ensures rest { self.new ≡ record self.old { complained = self.new.complained } }
        ensures stays { Stays (memory_world self.old) (memory_world self.new) }
        ensures asked { AsksNothing (memory_world self.old) (memory_world self.new) }
        ensures counts { NoneFell (memory_world self.old) (memory_world self.new) }
    {
        if self.complained.extend_from_slice(line).is_ok() {
            let _ = self.complained.push(b'\n');
        }
    }
}

/// Copies a file's content, if it is within the limit.
fn take_content(content: &[u8], limit: u64, into: &mut Vec<u8>) -> Got
    requires { into.old.items ≡ [] }
    ensures taken { result ≡ Got.Ok → into.new.items ≡ content.now }
    ensures within { result ≡ Got.Ok → length content.now ≤ limit }
    ensures too_long { result ≡ Got.TooLong → limit < length content.now }
    ensures emptied { result ≢ Got.Ok → into.new.items ≡ [] }
    ensures no_fault { result ≢ Got.Failed }
{
    if content.len() as u64 > limit {
        return Got::TooLong;
    }
    match into.extend_from_slice(content) {
        Ok(()) => Got::Ok,
        Err(_) => Got::NoMemory,
    }
}

/// The first bytes, at most this many.
fn front(bytes: &[u8], count: u64) -> &[u8]
    ensures { result.now ≡ take count bytes.now }
{
    if count < bytes.len() as u64 {
        &bytes[..count as usize]
    } else {
        bytes
    }
}
