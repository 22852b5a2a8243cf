//! How much files may declare.

/// The most classes that all files together have.
pub const MOST_CLASSES: usize = 256;

/// The most members of one sort that a class has. Typedefs and constants are one sort, data members
/// are one, and functions are one.
pub const MOST_MEMBERS: usize = 64;

/// The most locals that a function has.
pub const MOST_LOCALS: u32 = 64;
