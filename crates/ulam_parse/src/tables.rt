//! What each symbol may begin or join.
ghost use Rattle.std.specs.Prelude.{◌≡◌, ◌+◌, ◌<◌};
ghost use Rattle.ulam_parse.specs.Nesting as nest;
ghost use Rattle.ulam_parse.specs.Tables as table;

use crate::symbol::{Assigning, Infix, Opening, Starting, Symbol, Weight};
use ulam_tree::{PairOp, PrefixOp};

/// What a symbol does with the expression before it.
pub fn infix_of(symbol: Symbol) -> Infix
    ensures { result ≡ table.infix_of symbol }
{
    match symbol {
        Symbol::BarBar => Infix::Joins(PairOp::Either),
        Symbol::AmpAmp => Infix::Joins(PairOp::Both),
        Symbol::Bar => Infix::Joins(PairOp::Or),
        Symbol::Caret => Infix::Joins(PairOp::Xor),
        Symbol::Amp => Infix::Joins(PairOp::And),
        Symbol::Eq => Infix::Joins(PairOp::Eq),
        Symbol::Ne => Infix::Joins(PairOp::Ne),
        Symbol::Lt => Infix::Joins(PairOp::Lt),
        Symbol::Le => Infix::Joins(PairOp::Le),
        Symbol::Gt => Infix::Joins(PairOp::Gt),
        Symbol::Ge => Infix::Joins(PairOp::Ge),
        Symbol::ShiftLeft => Infix::Joins(PairOp::Shl),
        Symbol::ShiftRight => Infix::Joins(PairOp::Shr),
        Symbol::Plus => Infix::Joins(PairOp::Add),
        Symbol::Minus => Infix::Joins(PairOp::Sub),
        Symbol::Star => Infix::Joins(PairOp::Mul),
        Symbol::Slash => Infix::Joins(PairOp::Div),
        Symbol::Percent => Infix::Joins(PairOp::Rem),
        Symbol::Is => Infix::Tests,
        Symbol::Dot | Symbol::OpenParen | Symbol::OpenBracket => Infix::Opens,
        _ => Infix::Ends,
    }
}

/// The level of an operator. A higher level binds more tightly.
pub fn level(op: PairOp) -> u8
    ensures value { result ≡ table.level op }
    ensures small { result < 12 }
{
    match op {
        PairOp::Either => 1,
        PairOp::Both => 2,
        PairOp::Or => 3,
        PairOp::Xor => 4,
        PairOp::And => 5,
        PairOp::Eq | PairOp::Ne => 6,
        PairOp::Lt | PairOp::Le | PairOp::Gt | PairOp::Ge => 7,
        PairOp::Shl | PairOp::Shr => 9,
        PairOp::Add | PairOp::Sub => 10,
        PairOp::Mul | PairOp::Div | PairOp::Rem => 11,
    }
}

/// The least level of what may stand behind an operator: operators of one level group from the
/// left.
pub fn level_behind(op: PairOp) -> u8
    ensures value { result ≡ table.level op + 1 }
    ensures small { result < 13 }
{
    level(op) + 1
}

/// What a symbol begins where an operand is wanted.
pub fn opening_of(symbol: Symbol) -> Opening
    ensures { result ≡ table.opening_of symbol }
{
    match symbol {
        Symbol::Minus => Opening::Signs(PrefixOp::Minus),
        Symbol::Bang => Opening::Signs(PrefixOp::Not),
        Symbol::Tilde => Opening::Signs(PrefixOp::Flip),
        Symbol::OpenParen => Opening::Parens,
        Symbol::Number => Opening::Counts,
        Symbol::True => Opening::Says(true),
        Symbol::False => Opening::Says(false),
        Symbol::TypeName => Opening::Classes,
        Symbol::Name => Opening::Names,
        Symbol::Own => Opening::Owns,
        _ => Opening::Nothing,
    }
}

/// What a symbol does with a place on its left.
pub fn assigning_of(symbol: Symbol) -> Assigning
    ensures { result ≡ table.assigning_of symbol }
{
    match symbol {
        Symbol::Set => Assigning::Assigns(None),
        Symbol::SetPlus => Assigning::Assigns(Some(PairOp::Add)),
        Symbol::SetMinus => Assigning::Assigns(Some(PairOp::Sub)),
        Symbol::SetStar => Assigning::Assigns(Some(PairOp::Mul)),
        Symbol::SetSlash => Assigning::Assigns(Some(PairOp::Div)),
        Symbol::SetPercent => Assigning::Assigns(Some(PairOp::Rem)),
        Symbol::SetAmp => Assigning::Assigns(Some(PairOp::And)),
        Symbol::SetBar => Assigning::Assigns(Some(PairOp::Or)),
        Symbol::SetCaret => Assigning::Assigns(Some(PairOp::Xor)),
        Symbol::SetShiftLeft => Assigning::Assigns(Some(PairOp::Shl)),
        Symbol::SetShiftRight => Assigning::Assigns(Some(PairOp::Shr)),
        Symbol::PlusPlus => Assigning::Counts(true),
        Symbol::MinusMinus => Assigning::Counts(false),
        _ => Assigning::Nothing,
    }
}

/// What a symbol begins where a statement is wanted.
pub fn starting_of(symbol: Symbol) -> Starting
    ensures { result ≡ table.starting_of symbol }
{
    match symbol {
        Symbol::OpenBrace => Starting::Block,
        Symbol::Semi => Starting::Empty,
        Symbol::If => Starting::If,
        Symbol::While => Starting::While,
        Symbol::For => Starting::For,
        Symbol::Return => Starting::Return,
        Symbol::Break => Starting::Break,
        Symbol::Continue => Starting::Continue,
        Symbol::TypeName => Starting::Declare,
        Symbol::Name | Symbol::Own | Symbol::PlusPlus | Symbol::MinusMinus => Starting::Simple,
        _ => Starting::Nothing,
    }
}

/// What a symbol does to the count of nesting.
pub fn weight_of(symbol: Symbol) -> Weight
    ensures { result ≡ nest.weight_of symbol }
{
    match symbol {
        Symbol::Comma => Weight::Clears,
        Symbol::OpenParen | Symbol::OpenBracket | Symbol::OpenBrace => Weight::Opens,
        Symbol::CloseParen | Symbol::CloseBracket | Symbol::CloseBrace => Weight::Closes,
        Symbol::Name
        | Symbol::TypeName
        | Symbol::Number
        | Symbol::End
        | Symbol::Element
        | Symbol::Quark
        | Symbol::Ulam
        | Symbol::Use
        | Symbol::Typedef
        | Symbol::Constant
        | Symbol::Else
        | Symbol::Return
        | Symbol::Break
        | Symbol::Continue
        | Symbol::Is
        | Symbol::As
        | Symbol::Own
        | Symbol::True
        | Symbol::False
        | Symbol::Instanceof
        | Symbol::Semi
        | Symbol::Dot => Weight::Nothing,
        _ => Weight::Adds,
    }
}
