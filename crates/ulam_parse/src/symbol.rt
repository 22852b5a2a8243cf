//! The symbols that the grammar's rules are written in, and what each may begin or join.

use ulam_tree::{PairOp, PrefixOp};

/// What a token is to the grammar: its kind, and for keywords and signs which one.
#[derive(Clone, Copy)]
pub enum Symbol {
    /// A name.
    Name,
    /// The name of a type.
    TypeName,
    /// A number.
    Number,
    /// The end of the file.
    End,
    /// `element`
    Element,
    /// `quark`
    Quark,
    /// `ulam`
    Ulam,
    /// `use`
    Use,
    /// `typedef`
    Typedef,
    /// `constant`
    Constant,
    /// `if`
    If,
    /// `else`
    Else,
    /// `while`
    While,
    /// `for`
    For,
    /// `return`
    Return,
    /// `break`
    Break,
    /// `continue`
    Continue,
    /// `is`
    Is,
    /// `as`
    As,
    /// `self`
    Own,
    /// `true`
    True,
    /// `false`
    False,
    /// `instanceof`
    Instanceof,
    /// `{`
    OpenBrace,
    /// `}`
    CloseBrace,
    /// `(`
    OpenParen,
    /// `)`
    CloseParen,
    /// `[`
    OpenBracket,
    /// `]`
    CloseBracket,
    /// `;`
    Semi,
    /// `:`, which no rule uses
    Colon,
    /// `,`
    Comma,
    /// `.`
    Dot,
    /// `=`
    Set,
    /// `==`
    Eq,
    /// `!=`
    Ne,
    /// `<`
    Lt,
    /// `<=`
    Le,
    /// `>`
    Gt,
    /// `>=`
    Ge,
    /// `+`
    Plus,
    /// `-`
    Minus,
    /// `*`
    Star,
    /// `/`
    Slash,
    /// `%`
    Percent,
    /// `&`
    Amp,
    /// `|`
    Bar,
    /// `^`
    Caret,
    /// `~`
    Tilde,
    /// `!`
    Bang,
    /// `&&`
    AmpAmp,
    /// `||`
    BarBar,
    /// `<<`
    ShiftLeft,
    /// `>>`
    ShiftRight,
    /// `++`
    PlusPlus,
    /// `--`
    MinusMinus,
    /// `+=`
    SetPlus,
    /// `-=`
    SetMinus,
    /// `*=`
    SetStar,
    /// `/=`
    SetSlash,
    /// `%=`
    SetPercent,
    /// `&=`
    SetAmp,
    /// `|=`
    SetBar,
    /// `^=`
    SetCaret,
    /// `<<=`
    SetShiftLeft,
    /// `>>=`
    SetShiftRight,
}

/// What a symbol does with the expression before it.
#[derive(Clone, Copy)]
pub enum Infix {
    /// It joins it with another expression.
    Joins(PairOp),
    /// It tests its class, as `is` does.
    Tests,
    /// It continues a path.
    Opens,
    /// It ends the expression.
    Ends,
}

/// What a symbol begins where an operand is wanted.
#[derive(Clone, Copy)]
pub enum Opening {
    /// An operator and its operand.
    Signs(PrefixOp),
    /// A cast, or an expression in brackets.
    Parens,
    /// A number.
    Counts,
    /// `true` or `false`.
    Says(bool),
    /// A new atom of a class.
    Classes,
    /// A path.
    Names,
    /// A path from `self`.
    Owns,
    /// No operand.
    Nothing,
}

/// What a symbol does with a place on its left.
#[derive(Clone, Copy)]
pub enum Assigning {
    /// It assigns to it, directly or with an operator.
    Assigns(Option<PairOp>),
    /// It counts it up or down. Such a symbol may also come before the place.
    Counts(bool),
    /// Neither.
    Nothing,
}

/// What a symbol begins where a statement is wanted.
#[derive(Clone, Copy)]
pub enum Starting {
    /// A block, by `{`.
    Block,
    /// The empty statement, by `;`.
    Empty,
    /// An `if`.
    If,
    /// A `while`.
    While,
    /// A `for`.
    For,
    /// A `return`.
    Return,
    /// A `break`.
    Break,
    /// A `continue`.
    Continue,
    /// A declaration of a local.
    Declare,
    /// An assignment, a count or a call.
    Simple,
    /// No statement.
    Nothing,
}

/// What a symbol does to the count of nesting.
#[derive(Clone, Copy)]
pub enum Weight {
    /// It adds 1.
    Adds,
    /// It sets the innermost count to 0.
    Clears,
    /// It opens a bracket.
    Opens,
    /// It closes a bracket.
    Closes,
    /// Nothing.
    Nothing,
}
