//! Tokens as the grammar sees them.

use crate::symbol::Symbol;
use feast_base::Place;

/// A token with its symbol, and its value if it is a number.
#[derive(Clone, Copy)]
pub struct Mark {
    pub symbol: Symbol,
    /// The index of its first byte.
    pub first: usize,
    /// The index of the byte after its last.
    pub end: usize,
    pub place: Place,
    /// The value of a number.
    pub value: u32,
    /// Whether `u` follows a number.
    pub unsigned: bool,
}
