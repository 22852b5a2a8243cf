//! Limits of a chain.

/// The greatest number that a leg has.
pub const LAST_LEG: u32 = 4_294_967_295;

/// The most legs that a chain has, and that a report of counts is for.
pub const MOST_LEGS: u32 = 1_000_000;
