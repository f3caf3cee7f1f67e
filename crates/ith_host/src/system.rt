//! The operating system as a host.

ghost use Rattle.std.specs.Prelude.{◌≡◌, false, None, []};
ghost use Rattle.ith_host.specs.World.{World, Rose, NoneFell, Stays, StaysBut, AsksFor, AsksNothing, IsContent, Holds, PrintedSome};

use crate::asked::Asked;
use crate::host::{Got, Host, Printed, Put};
use crate::transfer::{FaultCounter, read_to_limit, write_to_end};
use std::fs::{File, Files};
use std::io::{self, Eprint, Print};

/// The operating system as a host. Nothing is known of its files: its system calls are trusted, and only the loops
/// around them are proved.
#[derive(Drop)]
pub struct OsHost<'a, R> {
    rt: &'a R,
    asked: Asked,
    read_faults: u64,
    write_faults: u64,
    print_faults: u64,
}

impl<'a, R> OsHost<'a, R> {
    ghost use Rattle.ith_host.specs.OsHost.{os_world};

    /// The host of a runtime, with no faults so far.
    pub fn new(rt: &'a R) -> Self
        ensures { os_world result ≡ record {
          is_stated = false;
          files = λ _. None;
          printed = None;
          asked = [];
          read_faults = λ _. 0;
          write_faults = λ _. 0;
          print_faults = 0;
        } }
    {
        OsHost {
            rt,
            asked: Asked::none(),
            read_faults: 0,
            write_faults: 0,
            print_faults: 0,
        }
    }
}

impl<'a, R: Files + Print + Eprint> Host for OsHost<'a, R> {
    ghost use Rattle.ith_host.specs.OsHost.{os_world};

    ghost world = { os_world };

    fn read(&mut self, name: &str, limit: u64, into: &mut Vec<u8>) -> Got {
        self.asked.note(name.as_bytes());
        match File::open(self.rt, name) {
            Ok(file) => {
                let mut source = FaultCounter::new(file, self.read_faults);
                let got = read_to_limit(&mut source, limit, into);
                self.read_faults = source.faults();
                got
            }
            Err(_) => {
                self.read_faults = self.read_faults.saturating_add(1);
                Got::Failed
            }
        }
    }

    fn write(&mut self, name: &str, bytes: &[u8]) -> Put {
        let Ok(file) = File::create(self.rt, name) else {
            self.write_faults = self.write_faults.saturating_add(1);
            return Put::Failed;
        };
        let mut sink = FaultCounter::new(file, self.write_faults);
        let written = write_to_end(&mut sink, bytes);
        self.write_faults = sink.faults();
        if written { Put::Ok } else { Put::Failed }
    }

    fn print(&mut self, bytes: &[u8]) -> Printed {
        let mut sink = FaultCounter::new(io::writer(self.rt), self.print_faults);
        let printed = write_to_end(&mut sink, bytes);
        self.print_faults = sink.faults();
        if printed {
            Printed::Ok
        } else {
            Printed::Failed
        }
    }

    fn complain(&mut self, line: &[u8]) {
        if let Ok(text) = str::from_utf8(line) {
            let _ = self.rt.eprintln(text);
        }
    }
}
