//! The magic bytes of a code file.

/// The first bytes of a code file: six letters, and two bytes of the version.
pub const MAGIC: [u8; 8] = *b"FEASTC\x01\x00";
