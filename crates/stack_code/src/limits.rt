//! How large code may be.

/// The most instructions of an element's code, and so the most functions.
pub const MOST_INSTRS: u32 = 65_536;

/// The most operands at any place of the code.
pub const MOST_OPERANDS: u32 = 512;

/// The most slots of a function.
pub const MOST_SLOTS: usize = 72;
