//! The operators that instructions apply to numbers.

use sat_math::{Arith, CompareOp, NumType};

/// An operator on one number.
#[derive(Clone, Copy)]
pub enum UnaryOp {
    /// The negation, as an `Int`.
    Neg(Arith),
    /// This many low bits of the complement.
    Flip(u8),
    /// The number converted to a type.
    Fit(NumType),
    /// 1 for 0, otherwise 0.
    Not,
}

/// An operator on two numbers.
#[derive(Clone, Copy)]
pub enum BinaryOp {
    /// The sum.
    Add(Arith),
    /// The difference.
    Sub(Arith),
    /// The product.
    Mul(Arith),
    /// The quotient. Failure 3 if the upper number is 0.
    Div(Arith),
    /// The remainder. Failure 3 if the upper number is 0.
    Rem(Arith),
    /// The bitwise and.
    And,
    /// The bitwise or.
    Or,
    /// The bitwise exclusive or.
    Xor,
    /// The bits shifted left; this many low bits are kept.
    Shl(u8),
    /// The bits shifted right.
    Shr,
    /// 1 if the comparison holds, otherwise 0.
    Test(CompareOp),
}
