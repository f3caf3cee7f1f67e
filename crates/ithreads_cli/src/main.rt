//! The program: its arguments, the operating system as its host, the progress line on a terminal, and the exit status.
#![tactic(auto)]

use ith_host::{Host, Live, OsHost};
use ith_top::{Status, top};
use std::env;
use std::io::{ErrorKind, IsTerminal};
use std::process::ExitCode;

fn main(rt: HostRuntime) -> ExitCode {
    let alloc = rt.alloc();
    let mut host = OsHost::new(&rt);
    let words: Vec<String> = match env::args(&rt) {
        Ok(args) => match args.collect(alloc) {
            Ok(words) => words,
            Err(_) => return without_memory(&mut host),
        },
        Err(error) if error.kind() == ErrorKind::OutOfMemory => return without_memory(&mut host),
        Err(_) => {
            host.complain(b"words: one of them is not UTF-8");
            return ExitCode::from(Status::Words.code());
        }
    };
    let live = Live::new(&rt, is_shown(&rt));
    ExitCode::from(top(&rt, alloc, &words, &mut host, &live))
}

/// Whether to show the progress of a round: if standard error is a terminal, unless `ITHREADS_QUIET` is set.
fn is_shown(rt: &HostRuntime) -> bool {
    rt.stderr().is_terminal() && env::var(rt, "ITHREADS_QUIET").is_err()
}

/// The exit status if memory ran out while the arguments were collected.
fn without_memory<H: Host>(host: &mut H) -> ExitCode {
    host.complain(b"no memory");
    ExitCode::from(Status::NoMemory.code())
}
