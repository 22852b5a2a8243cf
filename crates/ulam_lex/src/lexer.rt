//! Reading a text from its start to its end.
ghost use Rattle.std.specs.Prelude.{◌≡◌, ◌+◌, ◌-◌, ◌<◌, ◌≤◌, ◌^◌, ◌∷◌, [], length, take, drop, fold, IfOk, IfErr, ◌⊎◌, List};
ghost use Rattle.ulam_lex.specs.Texts.{is_word_kind, is_joined, place_after, IsTokenList, IsFaultOf, AreInOrder};
ghost use Rattle.ulam_lex.specs.declared.lexer.TheConstants.{MOST_TOKENS};
ghost use Rattle.ulam_lex.specs.Laws.{GivesTokens, GivesFault};
ghost use Rattle.ulam_lex.specs.Starts.{Stands};
ghost use Rattle.ulam_lex.specs.declared.token.Token.{Token};
ghost use Rattle.ulam_lex.specs.declared.token.LexFault.{LexFault};
ghost use Rattle.ulam_lex.specs.Steps.{next_place, cut_at, standing, IsAdded, IsStep, IsRead};

use crate::bytes::is_word_byte;
use crate::scan::{PieceKind, Start, start_of};
use crate::token::{LexFault, Token, TokenKind};
use feast_base::Place;
use std::alloc::Global;

impl PieceKind {
    /// Whether no letter, digit or `_` may follow.
    fn is_word(self) -> bool
        ensures { result ≡ is_word_kind self }
    {
        match self {
            PieceKind::Space | PieceKind::Comment => false,
            PieceKind::Token(kind) => !matches!(kind, TokenKind::Sign | TokenKind::End),
        }
    }
}

/// Whether a letter, a digit or `_` directly follows a word or a number.
fn is_joined(kind: PieceKind, back: &[u8]) -> bool
    ensures { result ≡ is_joined kind back.now }
{
    match back {
        [first, ..] => kind.is_word() && is_word_byte(*first),
        [] => false,
    }
}

/// The column of the first byte of a line.
const FIRST_COLUMN: u32 = 1;

/// The place after one more byte.
fn next_place(place: Place, byte: u8) -> Place
    requires line { place.line + 1 < 2 ^ 32 }
    requires column { place.column + 1 < 2 ^ 32 }
    ensures { result ≡ next_place place byte }
{
    if byte == b'\n' {
        Place {
            line: place.line + 1,
            column: FIRST_COLUMN,
            ..place
        }
    } else {
        Place {
            column: place.column + 1,
            ..place
        }
    }
}

/// The place after some more bytes.
fn place_after(place: Place, bytes: &[u8]) -> Place
    requires line { place.line + length bytes.now < 2 ^ 32 }
    requires column { place.column + length bytes.now < 2 ^ 32 }
    ensures { result ≡ fold next_place place bytes.now }
{
    let mut end = place;
    for byte in bytes {
        end = next_place(end, *byte);
    }
    end
}

/// The most tokens that a text may have, not counting `End`.
pub const MOST_TOKENS: usize = 200_000;

/// Adds the token of a piece, if it is one.
fn add(
    tokens: &mut Vec<Token>,
    kind: PieceKind,
    first: u32,
    end: u32,
    place: Place,
) -> Result<(), LexFault>
    requires { length tokens.old.items ≤ MOST_TOKENS }
    ensures { IsAdded (standing kind first end place) tokens.old.items tokens.new.items result }
{
    let PieceKind::Token(kind) = kind else {
        return Ok(());
    };
    if tokens.len() >= MOST_TOKENS {
        return Err(LexFault::TooManyTokens(place));
    }
    match tokens.push(Token {
        kind,
        first,
        end,
        place,
    }) {
        Ok(()) => Ok(()),
        Err(_) => Err(LexFault::NoMemory),
    }
}

/// Takes the piece of `len` bytes at a place: adds its token, if it is one, and gives its length
/// and the place after it.
fn take_piece(
    bytes: &[u8],
    at: usize,
    place: Place,
    kind: PieceKind,
    len: usize,
    tokens: &mut Vec<Token>,
) -> Result<(usize, Place), LexFault>
    requires short { length bytes.now < 2 ^ 32 - 1 }
    requires within { at + len ≤ length bytes.now }
    requires some { 0 < len }
    requires placed { place ≡ place_after place.file (take at bytes.now) }
    requires few { length tokens.old.items ≤ MOST_TOKENS }
    requires stands { Stands kind (drop at bytes.now) (take len (drop at bytes.now)) (drop len (drop at bytes.now)) }
    ensures { IsStep (cut_at place.file bytes.now at) tokens.old.items tokens.new.items result }
{
    let (_, rest) = bytes.split_at(at);
    let (piece, back) = rest.split_at(len);
    add(tokens, kind, at as u32, (at + len) as u32, place)?;
    let next = place_after(place, piece);
    if is_joined(kind, back) {
        return Err(LexFault::BadByte(next));
    }
    Ok((len, next))
}

/// Takes the piece at a place, or finds the fault that is there.
fn step(
    bytes: &[u8],
    at: usize,
    place: Place,
    tokens: &mut Vec<Token>,
) -> Result<(usize, Place), LexFault>
    requires short { length bytes.now < 2 ^ 32 - 1 }
    requires within { at < length bytes.now }
    requires placed { place ≡ place_after place.file (take at bytes.now) }
    requires few { length tokens.old.items ≤ MOST_TOKENS }
    ensures { IsStep (cut_at place.file bytes.now at) tokens.old.items tokens.new.items result }
{
    let (_, rest) = bytes.split_at(at);
    match start_of(rest) {
        Start::Piece(kind, len) => take_piece(bytes, at, place, kind, len, tokens),
        Start::BadByte(behind) => {
            let (front, _) = rest.split_at(behind);
            Err(LexFault::BadByte(place_after(place, front)))
        }
        Start::OpenComment => Err(LexFault::OpenComment(place)),
        Start::NumberTooLarge => Err(LexFault::NumberTooLarge(place)),
    }
}

/// Reads a text from its start to its end.
fn read(alloc: Global, bytes: &[u8], file: u32) -> Result<Vec<Token>, LexFault>
    requires { length bytes.now < 2 ^ 32 - 1 }
    ensures tokens { IfOk result (λ v. IsTokenList file bytes.now v.items) }
    ensures fault { IfErr result (λ e. (e ≡ LexFault.NoMemory) ⊎ IsFaultOf file bytes.now e) }
{
    let mut tokens = Vec::new(alloc);
    let mut at = 0;
    let mut place = Place {
        file,
        line: 1,
        column: FIRST_COLUMN,
    };
    while at < bytes.len() {
        let (len, next) = step(bytes, at, place, &mut tokens)?;
        at += len;
        place = next;
    }
    let end = at as u32;
    match tokens.push(Token {
        kind: TokenKind::End,
        first: end,
        end,
        place,
    }) {
        Ok(()) => Ok(tokens),
        Err(_) => Err(LexFault::NoMemory),
    }
}

/// The tokens of a text, with `End` as the last. `file` is the number that their places show.
///
/// White space is space, tab, CR and LF, and comments run from `//` to the end of the line or from
/// `/*` to the next `*/`. Everything else is tokens, each the longest that begins there.
///
/// # Errors
/// The first fault of the text: a byte that can't be where it is, a comment that is not closed, a
/// number of 2^32 or more, or the 200,001st token. `NoMemory` if the list could not grow.
pub fn lex(alloc: Global, bytes: &[u8], file: u32) -> Result<Vec<Token>, LexFault>
    requires { length bytes.now < 2 ^ 32 - 1 }

    // The result is the text's list of tokens, or its first fault.
    ensures tokens { IfOk result (λ v. IsTokenList file bytes.now v.items) }
    ensures fault { IfErr result (λ e. (e ≡ LexFault.NoMemory) ⊎ IsFaultOf file bytes.now e) }

    // The tokens come one after another, and `End` is only the last.
    ensures order { IfOk result (λ v. AreInOrder bytes.now 0 v.items) }

    // A text that has a list of tokens gets it, and one that has a first fault gets that, unless memory runs out.
    ensures only_tokens { (tokens : List Token) → IsTokenList file bytes.now tokens → GivesTokens result tokens }
    ensures only_fault { (fault : LexFault) → IsFaultOf file bytes.now fault → GivesFault result fault }
{
    read(alloc, bytes, file)
}
