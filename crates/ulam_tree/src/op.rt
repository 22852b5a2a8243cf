//! Operators.

/// An operator in front of its operand.
#[derive(Clone, Copy)]
pub enum PrefixOp {
    /// `-`
    Minus,
    /// `!`
    Not,
    /// `~`
    Flip,
}

/// An operator between its operands.
#[derive(Clone, Copy)]
pub enum PairOp {
    /// `+`
    Add,
    /// `-`
    Sub,
    /// `*`
    Mul,
    /// `/`
    Div,
    /// `%`
    Rem,
    /// `&`
    And,
    /// `|`
    Or,
    /// `^`
    Xor,
    /// `<<`
    Shl,
    /// `>>`
    Shr,
    /// `&&`
    Both,
    /// `||`
    Either,
    /// `==`
    Eq,
    /// `!=`
    Ne,
    /// `<`
    Lt,
    /// `<=`
    Le,
    /// `>`
    Gt,
    /// `>=`
    Ge,
}
