//! Writes each small guest of `worked_guests` on a line of standard output: its name, and the bytes of its executable
//! in hexadecimal digits. The expected output was made by another assembler.
#![tactic(auto)]

use std::alloc::Global;
use std::io;
use std::io::{BufWriter, Write};
use worked_guests::guests::NAMED;
use worked_guests::{Guest, file_of};

/// Writes a guest's line.
fn write_guest<W: Write>(out: &mut W, alloc: Global, name: &str, guest: Guest) -> io::Result<()> {
    match file_of(alloc, guest)? {
        Some(file) => {
            let digits = hex::encode(alloc, file.as_slice())?;
            writeln!(out, "{name} {digits}")
        }
        None => writeln!(out, "{name} none"),
    }
}

fn main(rt: HostRuntime) -> io::Result<()> {
    let alloc = rt.alloc();
    let mut out = BufWriter::new(alloc, io::writer(&rt))?;
    for (name, guest) in NAMED {
        write_guest(&mut out, alloc, name, guest)?;
    }
    out.flush()
}
