//! The tokens of a text as the grammar sees them.
ghost use Rattle.std.specs.Prelude.{◌≡◌, ◌≤◌, map, slice_range, length, IfOk};
ghost use Rattle.std.specs.List.{All};
ghost use Rattle.ulam_parse.specs.Marks.{tok_at, IsMark};
ghost use Rattle.ulam_parse.specs.Sound.{IsSound};
ghost use Rattle.ulam_lex.specs.Pieces.{IsNumberToken};
ghost use Rattle.ulam_lex.specs.declared.token.TokenKind.TheVariants as kind;
ghost use Rattle.ulam_parse.specs.Tokens as spec;

use crate::halt::Halt;
use crate::mark::Mark;
use crate::symbol::Symbol;
use std::alloc::Global;
use ulam_lex::{Numeral, Token, TokenKind, numeral_of};

/// The symbol of a text in a table, or `:` if the table lacks it.
fn symbol_in(table: &[(&str, Symbol)], text: &[u8]) -> Symbol
    ensures { result ≡ spec.symbol_in (map (λ e. (e.0.now, e.1)) table.now) text.now }
{
    for (word, symbol) in table {
        if word.as_bytes() == text {
            return *symbol;
        }
    }
    Symbol::Colon
}

/// The keywords.
const KEYWORDS: [(&str, Symbol); 19] = [
    ("element", Symbol::Element),
    ("quark", Symbol::Quark),
    ("ulam", Symbol::Ulam),
    ("use", Symbol::Use),
    ("typedef", Symbol::Typedef),
    ("constant", Symbol::Constant),
    ("if", Symbol::If),
    ("else", Symbol::Else),
    ("while", Symbol::While),
    ("for", Symbol::For),
    ("return", Symbol::Return),
    ("break", Symbol::Break),
    ("continue", Symbol::Continue),
    ("is", Symbol::Is),
    ("as", Symbol::As),
    ("self", Symbol::Own),
    ("true", Symbol::True),
    ("false", Symbol::False),
    ("instanceof", Symbol::Instanceof),
];

/// The symbol of a keyword.
#[tactic(auto, unfolding(crate::specs::Tokens::keywords))]
fn keyword(text: &[u8]) -> Symbol
    ensures { result ≡ spec.symbol_in spec.keywords text.now }
{
    symbol_in(&KEYWORDS, text)
}

/// The signs.
const SIGNS: [(&str, Symbol); 43] = [
    ("{", Symbol::OpenBrace),
    ("}", Symbol::CloseBrace),
    ("(", Symbol::OpenParen),
    (")", Symbol::CloseParen),
    ("[", Symbol::OpenBracket),
    ("]", Symbol::CloseBracket),
    (";", Symbol::Semi),
    (":", Symbol::Colon),
    (",", Symbol::Comma),
    (".", Symbol::Dot),
    ("=", Symbol::Set),
    ("==", Symbol::Eq),
    ("!=", Symbol::Ne),
    ("<", Symbol::Lt),
    ("<=", Symbol::Le),
    (">", Symbol::Gt),
    (">=", Symbol::Ge),
    ("+", Symbol::Plus),
    ("-", Symbol::Minus),
    ("*", Symbol::Star),
    ("/", Symbol::Slash),
    ("%", Symbol::Percent),
    ("&", Symbol::Amp),
    ("|", Symbol::Bar),
    ("^", Symbol::Caret),
    ("~", Symbol::Tilde),
    ("!", Symbol::Bang),
    ("&&", Symbol::AmpAmp),
    ("||", Symbol::BarBar),
    ("<<", Symbol::ShiftLeft),
    (">>", Symbol::ShiftRight),
    ("++", Symbol::PlusPlus),
    ("--", Symbol::MinusMinus),
    ("+=", Symbol::SetPlus),
    ("-=", Symbol::SetMinus),
    ("*=", Symbol::SetStar),
    ("/=", Symbol::SetSlash),
    ("%=", Symbol::SetPercent),
    ("&=", Symbol::SetAmp),
    ("|=", Symbol::SetBar),
    ("^=", Symbol::SetCaret),
    ("<<=", Symbol::SetShiftLeft),
    (">>=", Symbol::SetShiftRight),
];

/// The symbol of a sign.
#[tactic(auto, unfolding(crate::specs::Tokens::signs))]
fn sign(text: &[u8]) -> Symbol
    ensures { result ≡ spec.symbol_in spec.signs text.now }
{
    symbol_in(&SIGNS, text)
}

/// The symbol of a token, from its kind and its text.
fn symbol_of(kind: TokenKind, text: &[u8]) -> Symbol
    ensures { result ≡ spec.symbol_of kind text.now }
{
    match kind {
        TokenKind::Name => Symbol::Name,
        TokenKind::TypeName => Symbol::TypeName,
        TokenKind::Number => Symbol::Number,
        TokenKind::End => Symbol::End,
        TokenKind::Keyword => keyword(text),
        TokenKind::Sign => sign(text),
    }
}

/// What the text of a number says. Other tokens get 0, which nothing uses.
#[tactic(auto, using(crate::proofs::Orders::numeral_is))]
fn numeral_in(of: TokenKind, text: &[u8]) -> Numeral
    requires { of ≡ kind.Number → IsNumberToken text.now }
    ensures value { of ≡ kind.Number → result.value ≡ spec.value_of text.now }
    ensures unsigned { of ≡ kind.Number → result.unsigned ≡ spec.unsigned_of text.now }
{
    match of {
        TokenKind::Number => numeral_of(text),
        _ => Numeral {
            value: 0,
            unsigned: false,
        },
    }
}

/// A token as the grammar sees it.
#[tactic(auto, using(crate::proofs::Orders::number_only))]
fn mark_of(bytes: &[u8], token: &Token) -> Mark
    requires { IsSound bytes.now token.now }
    ensures same { tok_at bytes.now result ≡ spec.tok_of bytes.now token.now }
    ensures sound { IsMark bytes.now result }
{
    let first = token.first as usize;
    let end = token.end as usize;
    let text = &bytes[first..end];
    let numeral = numeral_in(token.kind, text);
    Mark {
        symbol: symbol_of(token.kind, text),
        first,
        end,
        place: token.place,
        value: numeral.value,
        unsigned: numeral.unsigned,
    }
}

/// The tokens of a text as the grammar sees them.
pub fn marks_of(alloc: Global, bytes: &[u8], tokens: &[Token]) -> Result<Vec<Mark>, Halt>
    requires { All (λ t. IsSound bytes.now t) tokens.now }
    ensures same { IfOk result (λ v. map (λ m. tok_at bytes.now m) v.items ≡ spec.toks bytes.now tokens.now) }
    ensures sound { IfOk result (λ v. All (λ m. IsMark bytes.now m) v.items) }
{
    let mut marks = Vec::new(alloc);
    for token in tokens {
        marks.push(mark_of(bytes, token))?;
    }
    Ok(marks)
}
