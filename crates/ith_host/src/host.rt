//! The outside of the program, as a trait: what each call may do to it, and how each may end.

ghost use Rattle.std.specs.Prelude.{◌≡◌, ◌≢◌, ◌≤◌, ◌<◌, ◌∷◌, None, [], length, IfSome};
ghost use Rattle.std.specs.Io.KnownBytes.{Appends};
ghost use Rattle.ith_host.specs.World.{World, Rose, NoneFell, Stays, StaysBut, AsksFor, AsksNothing, IsContent, Holds, PrintedSome};

/// How a read ended.
#[derive(Clone, Copy, PartialEq, Eq)]
pub enum Got {
    /// The whole file was read.
    Ok,
    /// The file couldn't be read: it is absent, or the host's read of it failed.
    Failed,
    /// The file is longer than the limit.
    TooLong,
    /// There was no memory for the bytes.
    NoMemory,
}

/// How a write ended.
#[derive(Clone, Copy, PartialEq, Eq)]
pub enum Put {
    /// The file holds the bytes.
    Ok,
    /// The host's write failed, and nothing is known of the file.
    Failed,
    /// There was no memory, and nothing was written.
    NoMemory,
}

/// How a print ended.
#[derive(Clone, Copy, PartialEq, Eq)]
pub enum Printed {
    /// All of the bytes were printed.
    Ok,
    /// The host's print failed, and some of the first bytes may have been printed.
    Failed,
    /// There was no memory, and nothing was printed.
    NoMemory,
}

/// The outside of the program.
///
/// Its meaning is a `World`: the files by name and the printed bytes, as far as they are known, the names that reads
/// requested, and how many reads, writes and prints failed. The counts of faults never fall.
pub trait Host {
    // The world of this host, as contracts see it.
    ghost world: { Self → World };

    /// Reads a file of at most `limit` bytes into an empty vector. Its name is noted as requested.
    ///
    /// `Failed` only after a fault of this name's reads, `TooLong` only if the content, if it is known, is longer than
    /// the limit. After any result but `Ok` the vector is empty.
    fn read(&mut self, name: &str, limit: u64, into: &mut Vec<u8>) -> Got
        requires { into.old.items ≡ [] }
        ensures content { result ≡ Got.Ok → IsContent (world self.old) name.now into.new.items }
        ensures within { result ≡ Got.Ok → length into.new.items ≤ limit }
        ensures failed { result ≡ Got.Failed → Rose ((world self.old).read_faults name.now)
            ((world self.new).read_faults name.now) }
        ensures too_long { result ≡ Got.TooLong → IfSome ((world self.old).files name.now)
            (λ content. limit < length content) }
        ensures emptied { result ≢ Got.Ok → into.new.items ≡ [] }
        ensures asked { AsksFor (name.now ∷ []) (world self.old) (world self.new) }
        ensures stays { Stays (world self.old) (world self.new) }
        ensures counts { NoneFell (world self.old) (world self.new) };

    /// Makes the file of a name hold the bytes, whatever it held before.
    ///
    /// `Failed` only after a fault of this name's writes, and then nothing is known of the file.
    fn write(&mut self, name: &str, bytes: &[u8]) -> Put
        ensures written { result ≡ Put.Ok → Holds (world self.new) name.now bytes.now }
        ensures failed { result ≡ Put.Failed → Rose ((world self.old).write_faults name.now)
            ((world self.new).write_faults name.now) }
        ensures unstated { result ≡ Put.Failed → (world self.new).files name.now ≡ None }
        ensures memory { result ≡ Put.NoMemory → Stays (world self.old) (world self.new) }
        ensures others { StaysBut name.now (world self.old) (world self.new) }
        ensures asked { AsksNothing (world self.old) (world self.new) }
        ensures counts { NoneFell (world self.old) (world self.new) };

    /// Appends the bytes to what was printed.
    ///
    /// `Failed` only after a fault of printing, and then some of the first bytes may have been printed.
    fn print(&mut self, bytes: &[u8]) -> Printed
        ensures printed { result ≡ Printed.Ok
            → Appends (world self.old).printed (world self.new).printed bytes.now }
        ensures failed { result ≡ Printed.Failed
            → Rose (world self.old).print_faults (world self.new).print_faults }
        ensures part { result ≡ Printed.Failed
            → PrintedSome (world self.old) (world self.new) bytes.now }
        ensures memory { result ≡ Printed.NoMemory → Stays (world self.old) (world self.new) }
        ensures is_stated { (world self.new).is_stated ≡ (world self.old).is_stated }
        ensures files { (world self.new).files ≡ (world self.old).files }
        ensures asked { AsksNothing (world self.old) (world self.new) }
        ensures counts { NoneFell (world self.old) (world self.new) };

    /// Writes a line to the standard error. Nothing depends on its success.
    fn complain(&mut self, line: &[u8])
        ensures stays { Stays (world self.old) (world self.new) }
        ensures asked { AsksNothing (world self.old) (world self.new) }
        ensures counts { NoneFell (world self.old) (world self.new) };
}
