//! A reader of the fields of a file.

ghost use Rattle.std.specs.Prelude.{◌≡◌, ◌≤◌, ◌<◌, [], ◌∷◌, length, drop, IfOk, IsOk, OnErr};
ghost use Rattle.byteorder.specs.Endian.{little_bytes};
ghost use Rattle.ith_text.specs.Place.{Place, Takes};

use byteorder::{ByteOrder, LittleEndian};
use std::marker::Model;

/// Fewer bytes remain than a field has.
#[derive(Clone, Copy, PartialEq, Eq)]
pub struct Short;

/// A reader of the fields of a file, from the first byte on.
///
/// A clause sees its place: how many bytes were taken, and which bytes remain. After `Short` the place is as before.
#[derive(Drop)]
pub struct Cursor<'a> {
    bytes: &'a [u8],
    at: usize,
}

impl<'a> Model for Cursor<'a> {
    ghost Value = { Place };

    ghost view = { λ cursor. record { taken = cursor.at; left = drop cursor.at cursor.bytes.now } };

    ghost invariant = { λ cursor. cursor.at ≤ length cursor.bytes.now };
}

impl<'a> Cursor<'a> {
    /// A reader at the first of the bytes.
    pub fn new(bytes: &'a [u8]) -> Self
        ensures { result ≡ record { taken = 0; left = bytes.now } }
    {
        Cursor { bytes, at: 0 }
    }

    /// How many bytes were taken: the place of the next one in the file.
    pub fn position(&self) -> usize
        ensures { result ≡ self.now.taken }
    {
        self.at
    }

    /// How many bytes remain.
    pub fn remaining(&self) -> usize
        ensures { result ≡ length self.now.left }
    {
        self.bytes.len() - self.at
    }

    /// The next bytes, or `Short` exactly if fewer remain.
    pub fn bytes(&mut self, count: usize) -> Result<&'a [u8], Short>
        ensures taken { IfOk result (λ piece. Takes piece.now self.old self.new) }
        ensures count { IfOk result (λ piece. length piece.now ≡ count) }
        ensures enough { count ≤ length self.old.left → IsOk result }
        ensures short { OnErr result (length self.old.left < count) }
        ensures same { OnErr result (self.new ≡ self.old) }
    {
        if self.remaining() < count {
            return Err(Short);
        }
        let start = self.at;
        self.at = start + count;
        Ok(&self.bytes[start..start + count])
    }

    /// The next byte, or `Short` exactly if none remains.
    pub fn u8(&mut self) -> Result<u8, Short>
        ensures taken { IfOk result (λ value. Takes (value ∷ []) self.old self.new) }
        ensures enough { 1 ≤ length self.old.left → IsOk result }
        ensures short { OnErr result (length self.old.left < 1) }
        ensures same { OnErr result (self.new ≡ self.old) }
    {
        let piece = self.bytes(1)?;
        Ok(piece[0])
    }

    /// The next two bytes as a number, the lower first, or `Short` exactly if fewer remain.
    pub fn u16(&mut self) -> Result<u16, Short>
        ensures taken { IfOk result (λ value. Takes (little_bytes 2 value) self.old self.new) }
        ensures enough { 2 ≤ length self.old.left → IsOk result }
        ensures short { OnErr result (length self.old.left < 2) }
        ensures same { OnErr result (self.new ≡ self.old) }
    {
        let piece = self.bytes(2)?;
        Ok(u16_of(piece))
    }

    /// The next four bytes as a number, the lowest first, or `Short` exactly if fewer remain.
    pub fn u32(&mut self) -> Result<u32, Short>
        ensures taken { IfOk result (λ value. Takes (little_bytes 4 value) self.old self.new) }
        ensures enough { 4 ≤ length self.old.left → IsOk result }
        ensures short { OnErr result (length self.old.left < 4) }
        ensures same { OnErr result (self.new ≡ self.old) }
    {
        let piece = self.bytes(4)?;
        Ok(u32_of(piece))
    }

    /// The next eight bytes as a number, the lowest first, or `Short` exactly if fewer remain.
    pub fn u64(&mut self) -> Result<u64, Short>
        ensures taken { IfOk result (λ value. Takes (little_bytes 8 value) self.old self.new) }
        ensures enough { 8 ≤ length self.old.left → IsOk result }
        ensures short { OnErr result (length self.old.left < 8) }
        ensures same { OnErr result (self.new ≡ self.old) }
    {
        let piece = self.bytes(8)?;
        Ok(u64_of(piece))
    }
}

/// The number that two bytes encode, the lowest first.
fn u16_of(piece: &[u8]) -> u16
    requires { length piece.now ≡ 2 }
    ensures { little_bytes 2 result ≡ piece.now }
{
    LittleEndian::read_u16(piece)
}

/// The number that four bytes encode, the lowest first.
fn u32_of(piece: &[u8]) -> u32
    requires { length piece.now ≡ 4 }
    ensures { little_bytes 4 result ≡ piece.now }
{
    LittleEndian::read_u32(piece)
}

/// The number that eight bytes encode, the lowest first.
fn u64_of(piece: &[u8]) -> u64
    requires { length piece.now ≡ 8 }
    ensures { little_bytes 8 result ≡ piece.now }
{
    LittleEndian::read_u64(piece)
}
