//! What is at the front of a text.
ghost use Rattle.std.specs.Prelude.{◌≡◌, ℕ, ◌+◌, ◌<◌, ◌≤◌, ◌++◌, length, slice_index, take, drop, IfSome, IfNone, IsTrue, IsFalse, min, codes};
ghost use Rattle.std.specs.List.{prefix_len};
ghost use Rattle.feast_base.specs.TypeNames.{is_word_byte};
ghost use Rattle.feast_base.specs.declared.type_name.TheConstants.{LONGEST_NAME};
ghost use Rattle.ulam_lex.specs.Bytes.{is_white, class_of, is_sign};
ghost use Rattle.ulam_lex.specs.Pieces.{is_in_line};
ghost use Rattle.ulam_lex.specs.Starts.{IsStart, OpensNone, ClosesAt, StaysOpenAt};

use crate::bytes::{Class, class_of, is_keyword, is_sign, is_white, is_word_byte};
use crate::numeral::{base_at, digits_at, suffix_len, worth};
use crate::token::TokenKind;
use feast_base::LONGEST_NAME;

/// What a piece of a text is.
#[derive(Clone, Copy)]
pub enum PieceKind {
    /// White space.
    Space,
    /// A comment.
    Comment,
    /// A token.
    Token(TokenKind),
}

/// What is at the front of a text.
#[derive(Clone, Copy)]
pub enum Start {
    /// A piece of that many bytes.
    Piece(PieceKind, usize),
    /// A byte that can't be where it is, after that many bytes.
    BadByte(usize),
    /// A comment that is not closed.
    OpenComment,
    /// A number of 2^32 or more.
    NumberTooLarge,
}

/// How many bytes at the front are white space.
fn space_len(bytes: &[u8]) -> usize
    ensures { result ≡ prefix_len is_white bytes.now }
{
    bytes.iter().take_while(|byte| is_white(**byte)).count()
}

/// White space.
fn space(bytes: &[u8]) -> Start
    requires some { 0 < length bytes.now }
    requires class { class_of (slice_index bytes.now 0) ≡ Class.White }
    ensures { IsStart bytes.now result }
{
    Start::Piece(PieceKind::Space, space_len(bytes))
}

/// How many bytes at the front are letters, digits or `_`.
fn word_run(bytes: &[u8]) -> usize
    ensures { result ≡ prefix_len is_word_byte bytes.now }
{
    bytes.iter().take_while(|byte| is_word_byte(**byte)).count()
}

/// The length of the word at the front.
fn word_len(bytes: &[u8]) -> usize
    ensures value { result ≡ min (prefix_len is_word_byte bytes.now) LONGEST_NAME }
    ensures within { result ≤ length bytes.now }
{
    word_run(bytes).min(LONGEST_NAME)
}

/// A name or a keyword.
fn small_word(bytes: &[u8]) -> Start
    requires some { 0 < length bytes.now }
    requires class { class_of (slice_index bytes.now 0) ≡ Class.Small }
    ensures { IsStart bytes.now result }
{
    let length = word_len(bytes);
    let kind = if is_keyword(&bytes[..length]) {
        TokenKind::Keyword
    } else {
        TokenKind::Name
    };
    Start::Piece(PieceKind::Token(kind), length)
}

/// A type name.
fn capital_word(bytes: &[u8]) -> Start
    requires some { 0 < length bytes.now }
    requires class { class_of (slice_index bytes.now 0) ≡ Class.Capital }
    ensures { IsStart bytes.now result }
{
    Start::Piece(PieceKind::Token(TokenKind::TypeName), word_len(bytes))
}

/// A number.
fn number(bytes: &[u8]) -> Start
    requires some { 0 < length bytes.now }
    requires class { class_of (slice_index bytes.now 0) ≡ Class.Digit }
    ensures { IsStart bytes.now result }
{
    let base = base_at(bytes);
    let (digits, rest) = digits_at(base, bytes);
    if digits.is_empty() {
        return Start::BadByte(base.prefix_len());
    }
    match worth(base, digits) {
        Some(_value) => {
            let length = base.prefix_len() + digits.len() + suffix_len(rest);
            Start::Piece(PieceKind::Token(TokenKind::Number), length)
        }
        None => Start::NumberTooLarge,
    }
}

/// How many bytes come before the end of the line.
fn line_len(bytes: &[u8]) -> usize
    ensures { result ≡ prefix_len is_in_line bytes.now }
{
    bytes.iter().take_while(|byte| **byte != b'\n').count()
}

/// Where the first `*/` is.
fn close_at(bytes: &[u8]) -> Option<usize>
    ensures within { IfSome result (λ n. n + 1 < length bytes.now) }
    ensures found { IfSome result (λ n. ClosesAt bytes.now n) }
    ensures first { IfSome result (λ n. (k : ℕ) → k < n → StaysOpenAt bytes.now k) }
    ensures none { IfNone result ((k : ℕ) → k + 1 < length bytes.now → StaysOpenAt bytes.now k) }
{
    for i in 1..bytes.len() {
        if bytes[i - 1] == b'*' && bytes[i] == b'/' {
            return Some(i - 1);
        }
    }
    None
}

/// A comment up to the end of its line.
fn line_comment(bytes: &[u8]) -> Start
    requires { bytes.now ≡ codes "//" ++ drop 2 bytes.now }
    ensures { IsStart bytes.now result }
{
    let (_, body) = bytes.split_at(2);
    Start::Piece(PieceKind::Comment, 2 + line_len(body))
}

/// A comment up to its `*/`.
fn block_comment(bytes: &[u8]) -> Start
    requires { bytes.now ≡ codes "/*" ++ drop 2 bytes.now }
    ensures { IsStart bytes.now result }
{
    let (_, body) = bytes.split_at(2);
    match close_at(body) {
        Some(length) => Start::Piece(PieceKind::Comment, length + 4),
        None => Start::OpenComment,
    }
}

/// How many bytes the longest sign at the front has, or 0 if there is none.
fn sign_len(bytes: &[u8]) -> usize
    ensures within { result ≤ length bytes.now }
    ensures sign { 0 < result → IsTrue (is_sign (take result bytes.now)) }
    ensures longest { (m : ℕ) → result < m → m ≤ 3 → m ≤ length bytes.now → IsFalse (is_sign (take m bytes.now)) }
{
    let mut n = bytes.len().min(3);
    while n > 0 {
        if is_sign(&bytes[..n]) {
            return n;
        }
        n -= 1;
    }
    0
}

/// A sign, or nothing.
fn sign(bytes: &[u8]) -> Start
    requires some { 0 < length bytes.now }
    requires class { class_of (slice_index bytes.now 0) ≡ Class.Mark }
    requires alone { OpensNone bytes.now }
    ensures { IsStart bytes.now result }
{
    match sign_len(bytes) {
        0 => Start::BadByte(0),
        length => Start::Piece(PieceKind::Token(TokenKind::Sign), length),
    }
}

/// A comment, a sign, or nothing.
fn mark(bytes: &[u8]) -> Start
    requires some { 0 < length bytes.now }
    requires class { class_of (slice_index bytes.now 0) ≡ Class.Mark }
    ensures { IsStart bytes.now result }
{
    if bytes.starts_with(b"//") {
        line_comment(bytes)
    } else if bytes.starts_with(b"/*") {
        block_comment(bytes)
    } else {
        sign(bytes)
    }
}

/// What is at the front of a text.
pub fn start_of(bytes: &[u8]) -> Start
    requires { 0 < length bytes.now }
    ensures { IsStart bytes.now result }
{
    match class_of(bytes[0]) {
        Class::White => space(bytes),
        Class::Small => small_word(bytes),
        Class::Capital => capital_word(bytes),
        Class::Digit => number(bytes),
        Class::Mark => mark(bytes),
    }
}
