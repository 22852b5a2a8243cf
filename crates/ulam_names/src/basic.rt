//! What the names of types and constants stand for.

use sat_math::{Kind, NumType};
use ulam_tree::resolved::Ty;

/// What the name of a type stands for.
#[derive(Clone, Copy)]
pub enum Basic {
    /// A kind that takes a width, with the width that it has if none is written.
    Sized(Kind, u8),
    /// A type that takes no width.
    Whole(Ty),
}

/// A constant's type and number.
#[derive(Clone, Copy)]
pub struct Value {
    /// The type.
    pub num: NumType,
    /// The number; for truth values 1 or 0.
    pub value: i128,
}
