//! How a memo begins.

/// The first four bytes: ITHM.
pub const MAGIC: [u8; 4] = [0x49, 0x54, 0x48, 0x4d];

/// The version that is written.
pub const VERSION: u32 = 2;

/// Which machine the history is of, from version 2 on.
pub const PROFILE: u32 = 3;
