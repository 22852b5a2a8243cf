//! What the rules of types see of members, arguments and operands.

use ulam_tree::resolved::Ty;

/// What is wanted of an argument.
#[derive(Clone, Copy)]
pub enum Want {
    /// A value for a parameter of this type.
    Value { ty: Ty },
    /// The number of a site.
    Site,
    /// The bound of a random number.
    Bound,
}

/// A data member, as the rules see it.
#[derive(Clone, Copy)]
pub struct FieldSig {
    /// Its type; that of an item, if it is an array.
    pub ty: Ty,
    /// How many items it has, and 0 if it is no array.
    pub length: u32,
}

/// What an operator sees of a type.
#[derive(Clone, Copy)]
pub enum NumClass {
    /// `Int`.
    Int { width: u8 },
    /// `Unsigned` and `Unary`.
    Unsigned { width: u8 },
    /// `Bits`.
    Bits { width: u8 },
    /// `Bool`.
    Bool,
    /// Not a number.
    Other,
}
