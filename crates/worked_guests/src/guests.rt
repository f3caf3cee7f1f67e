//! The guests. Each starts at 0x10000; the page at 0x11000 is mapped if zeros follow.

use crate::file::Guest;
use crate::line::Line::{
    Add, Addi, Beq, Bytes, Call, Divu, Ecall, Lbu, Lui, Lw, Mul, Rem, Sb, Slli, Sw, Word,
};
use crate::line::Register::{A0, A1, A7, S0, S1, T0, T1, Zero};

/// Outputs `hi` and a newline, and exits with 0.
pub const HI: Guest = Guest {
    lines: &[
        Lui(A0, 0x10),
        Addi(A0, A0, 0x20),
        Addi(A1, Zero, 3),
        Call(1),
        Addi(A0, Zero, 0),
        Call(0),
        Bytes(b"hi\n"),
    ],
    bss: 0,
};

/// Two threads add a word of the input each to a total under a mutex; the total is output.
pub const PAIR: Guest = Guest {
    lines: &[
        Lui(A0, 0x10),
        Addi(A0, A0, 0x5c),
        Lui(A1, 0xc0001),
        Call(2),
        Lui(A0, 0x10),
        Addi(A0, A0, 0x5c),
        Lui(A1, 0xc0002),
        Call(2),
        Addi(A0, Zero, 1),
        Call(4),
        Addi(A0, Zero, 2),
        Call(4),
        Lui(A0, 0x11),
        Addi(A1, Zero, 4),
        Call(1),
        Addi(A0, Zero, 0),
        Call(0),
        Lw(S0, 0, A0),
        Addi(A0, Zero, 0),
        Call(6),
        Lui(T0, 0x11),
        Lw(T1, 0, T0),
        Add(T1, T1, S0),
        Sw(T1, 0, T0),
        Addi(A0, Zero, 0),
        Call(8),
        Addi(A0, Zero, 0),
        Call(3),
    ],
    bss: 8044,
};

/// Two threads store a byte each, side by side; both bytes are output.
pub const BYTES: Guest = Guest {
    lines: &[
        Lui(A0, 0x10),
        Addi(A0, A0, 0x5c),
        Addi(A1, Zero, 0),
        Call(2),
        Lui(A0, 0x10),
        Addi(A0, A0, 0x5c),
        Addi(A1, Zero, 1),
        Call(2),
        Addi(A0, Zero, 1),
        Call(4),
        Addi(A0, Zero, 2),
        Call(4),
        Lui(A0, 0x11),
        Addi(A1, Zero, 2),
        Call(1),
        Addi(A0, Zero, 0),
        Call(0),
        Lui(T0, 0x11),
        Add(T0, T0, A0),
        Addi(T1, A0, 17),
        Sb(T1, 0, T0),
        Call(3),
    ],
    bss: 8076,
};

/// A byte is loaded before and after a call that returns; another thread stores it in between.
pub const LATE: Guest = Guest {
    lines: &[
        Lui(A0, 0x10),
        Addi(A0, A0, 0x3c),
        Addi(A1, Zero, 0),
        Call(2),
        Lui(T0, 0x11),
        Lbu(S0, 0, T0),
        Call(5),
        Lui(T0, 0x11),
        Lbu(S1, 0, T0),
        Slli(S0, S0, 8),
        Add(A0, S0, S1),
        Call(0),
        Lui(T0, 0x11),
        Addi(T1, Zero, 51),
        Sb(T1, 0, T0),
        Call(5),
        Call(3),
    ],
    bss: 8104,
};

/// Exits with the length of the input.
pub const LENGTH: Guest = Guest {
    lines: &[Call(5), Lui(T0, 0xc0000), Lw(A0, 0, T0), Call(0)],
    bss: 0,
};

/// Locks a mutex if the first byte of the input is not zero; then another thread tries to lock it. Exits with the
/// answer.
pub const TRY: Guest = Guest {
    lines: &[
        Lui(T0, 0xc0001),
        Lbu(T1, 0, T0),
        Addi(A0, Zero, 0),
        Addi(A7, Zero, 5),
        Beq(T1, Zero, 2),
        Addi(A7, Zero, 6),
        Ecall,
        Lui(A0, 0x10),
        Addi(A0, A0, 0x48),
        Addi(A1, Zero, 0),
        Call(2),
        Addi(A0, Zero, 1),
        Call(4),
        Addi(A0, A1, 0),
        Call(0),
        Addi(A0, Zero, 0),
        Call(7),
        Call(3),
    ],
    bss: 0,
};

/// Two threads take two mutexes in opposite order.
pub const CROSS: Guest = Guest {
    lines: &[
        Lui(A0, 0x10),
        Addi(A0, A0, 0x5c),
        Addi(A1, Zero, 0),
        Call(2),
        Addi(A0, Zero, 0),
        Call(6),
        Addi(A0, Zero, 1),
        Call(6),
        Addi(A0, Zero, 1),
        Call(8),
        Addi(A0, Zero, 0),
        Call(8),
        Addi(A0, Zero, 1),
        Call(4),
        Addi(A0, Zero, 0),
        Call(0),
        Addi(A0, Zero, 1),
        Call(6),
        Addi(A0, Zero, 0),
        Call(6),
        Addi(A0, Zero, 0),
        Call(8),
        Addi(A0, Zero, 1),
        Call(8),
        Addi(A0, Zero, 0),
        Call(3),
    ],
    bss: 0,
};

/// Unlocks a mutex that no thread owns, and exits with the answer.
pub const PERM: Guest = Guest {
    lines: &[Addi(A0, Zero, 0), Call(8), Call(0)],
    bss: 0,
};

/// Stores a byte, and then loads a word at an address that is no multiple of 4.
pub const TRAP: Guest = Guest {
    lines: &[
        Lui(T0, 0x11),
        Addi(T1, Zero, 7),
        Sb(T1, 0, T0),
        Lw(A0, 2, T0),
    ],
    bss: 8176,
};

/// Stores an instruction over its own next one.
pub const SELF: Guest = Guest {
    lines: &[
        Lui(T0, 0x10),
        Lw(T1, 0x18, T0),
        Sw(T1, 0x10, T0),
        Addi(A7, Zero, 0),
        Addi(A0, Zero, 1),
        Ecall,
        Word(0x00900513),
    ],
    bss: 0,
};

/// Calls put for no bytes, for too many, past the last address, and over the edge of a page; then outputs the lowest
/// bytes of the answers. Its words were written by another assembler.
pub const PUTS: Guest = Guest {
    lines: &[Bytes(
        b"\xb7\x12\x01\x00\x13\x05\x00\x00\x93\x05\x00\x00\x93\x08\x10\x00\x73\x00\x00\x00\x23\x80\xa2\x00\x37\x05\x01\x00\xb7\x15\x00\x00\x93\x85\x15\x00\x93\x08\x10\x00\x73\x00\x00\x00\xa3\x80\xa2\x00\x13\x05\xf0\xff\x93\x05\x20\x00\x93\x08\x10\x00\x73\x00\x00\x00\x23\x81\xa2\x00\x37\x15\x00\xc0\x13\x05\xe5\xff\x93\x05\x40\x00\x93\x08\x10\x00\x73\x00\x00\x00\xa3\x81\xa2\x00\x37\x15\x01\x00\x93\x05\x40\x00\x93\x08\x10\x00\x73\x00\x00\x00\x13\x05\x00\x00\x93\x08\x00\x00\x73\x00\x00\x00",
    )],
    bss: 8072,
};

/// Creates one thread more than there may be, and one at a pc that is no multiple of 4; then outputs the lowest bytes
/// of the answers. Its words were written by another assembler.
pub const CREATES: Guest = Guest {
    lines: &[Bytes(
        b"\x37\x14\x01\x00\x93\x04\x04\x02\x37\x05\x01\x00\x13\x05\xc5\x05\x93\x05\x00\x00\x93\x08\x20\x00\x73\x00\x00\x00\x23\x00\xa4\x00\x13\x04\x14\x00\xe3\x12\x94\xfe\x37\x05\x01\x00\x13\x05\x25\x00\x93\x05\x00\x00\x93\x08\x20\x00\x73\x00\x00\x00\x23\x00\xa4\x00\x37\x15\x01\x00\x93\x05\x10\x02\x93\x08\x10\x00\x73\x00\x00\x00\x13\x05\x00\x00\x93\x08\x00\x00\x73\x00\x00\x00\x13\x05\x00\x00\x93\x08\x30\x00\x73\x00\x00\x00",
    )],
    bss: 8088,
};

/// Squares 0x10001, and divides 0x80000000 by 10: unsigned for the quotient, signed for the remainder. Outputs the
/// three words.
pub const RESULTS: Guest = Guest {
    lines: &[
        Lui(S0, 0x11),
        Lui(T0, 0x10),
        Addi(T0, T0, 1),
        Mul(T1, T0, T0),
        Sw(T1, 0, S0),
        Lui(T0, 0x80000),
        Addi(S1, Zero, 10),
        Divu(T1, T0, S1),
        Sw(T1, 4, S0),
        Rem(T1, T0, S1),
        Sw(T1, 8, S0),
        Addi(A0, S0, 0),
        Addi(A1, Zero, 12),
        Call(1),
        Addi(A0, Zero, 0),
        Call(0),
    ],
    bss: 8120,
};

/// Guests with the names of their executables in `examples/`.
pub const NAMED: [(&str, Guest); 13] = [
    ("hi", HI),
    ("pair", PAIR),
    ("bytes", BYTES),
    ("late", LATE),
    ("length", LENGTH),
    ("try", TRY),
    ("cross", CROSS),
    ("perm", PERM),
    ("trap", TRAP),
    ("self", SELF),
    ("puts", PUTS),
    ("creates", CREATES),
    ("results", RESULTS),
];
