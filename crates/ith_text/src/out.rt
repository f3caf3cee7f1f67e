//! A writer of the fields of a file.

ghost use Rattle.std.specs.Prelude.{◌≡◌, ◌↔◌, IsTrue, ℕ, List, [], ◌∷◌, ◌++◌, length, OnOk, OnErr};
ghost use Rattle.byteorder.specs.Endian.{little_bytes};

use byteorder::{ByteOrder, LittleEndian};
use std::alloc::{AllocError, Global};
use std::marker::Model;

/// A writer of the fields of a file. A clause sees the bytes that were written. If memory runs out, they are as before.
#[derive(Drop)]
pub struct Out {
    written: Vec<u8>,
}

impl Model for Out {
    ghost Value = { List ℕ };

    ghost view = { λ out. out.written.items };
}

impl Out {
    /// A writer that has written nothing.
    pub fn new(alloc: Global) -> Self
        ensures { result ≡ [] }
    {
        Out {
            written: Vec::new(alloc),
        }
    }

    /// How many bytes were written.
    pub fn len(&self) -> usize
        ensures { result ≡ length self.now }
    {
        self.written.len()
    }

    /// Whether nothing was written.
    pub fn is_empty(&self) -> bool
        ensures { IsTrue result ↔ (self.now ≡ []) }
    {
        self.written.is_empty()
    }

    /// The bytes that were written.
    pub fn as_slice(&self) -> &[u8]
        ensures { result.now ≡ self.now }
    {
        self.written.as_slice()
    }

    /// Consumes the writer, and returns the bytes. Allocates no memory.
    pub fn into_vec(self) -> Vec<u8>
        ensures { result.items ≡ self }
    {
        self.written
    }

    /// Appends bytes.
    pub fn bytes(&mut self, bytes: &[u8]) -> Result<(), AllocError>
        ensures ok { OnOk result (self.new ≡ self.old ++ bytes.now) }
        ensures err { OnErr result (self.new ≡ self.old) }
    {
        self.written.extend_from_slice(bytes)
    }

    /// Appends a byte.
    pub fn u8(&mut self, value: u8) -> Result<(), AllocError>
        ensures ok { OnOk result (self.new ≡ self.old ++ value ∷ []) }
        ensures err { OnErr result (self.new ≡ self.old) }
    {
        self.bytes(&[value])
    }

    /// Appends a number as two bytes, the lower first.
    pub fn u16(&mut self, value: u16) -> Result<(), AllocError>
        ensures ok { OnOk result (self.new ≡ self.old ++ little_bytes 2 value) }
        ensures err { OnErr result (self.new ≡ self.old) }
    {
        let mut piece = [0u8; 2];
        LittleEndian::write_u16(&mut piece, value);
        self.bytes(&piece)
    }

    /// Appends a number as four bytes, the lowest first.
    pub fn u32(&mut self, value: u32) -> Result<(), AllocError>
        ensures ok { OnOk result (self.new ≡ self.old ++ little_bytes 4 value) }
        ensures err { OnErr result (self.new ≡ self.old) }
    {
        let mut piece = [0u8; 4];
        LittleEndian::write_u32(&mut piece, value);
        self.bytes(&piece)
    }

    /// Appends a number as eight bytes, the lowest first.
    pub fn u64(&mut self, value: u64) -> Result<(), AllocError>
        ensures ok { OnOk result (self.new ≡ self.old ++ little_bytes 8 value) }
        ensures err { OnErr result (self.new ≡ self.old) }
    {
        let mut piece = [0u8; 8];
        LittleEndian::write_u64(&mut piece, value);
        self.bytes(&piece)
    }
}
