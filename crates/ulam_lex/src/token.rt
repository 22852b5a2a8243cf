//! Tokens, and why a text has none.
use feast_base::Place;
use thiserror::Error;

/// What a token is.
#[derive(Clone, Copy)]
pub enum TokenKind {
    /// A word that begins with a lower-case letter or `_` and is not a keyword.
    Name,
    /// A word that begins with an upper-case letter.
    TypeName,
    /// A word of the language.
    Keyword,
    /// A number below 2^32, with or without a `u` at its end.
    Number,
    /// An operator, a bracket or a punctuation mark.
    Sign,
    /// The end of the text.
    End,
}

/// A token of a text. Its bytes are those from `first` to before `end`.
#[derive(Clone, Copy)]
pub struct Token {
    /// What it is.
    pub kind: TokenKind,
    /// The index of its first byte in the text.
    pub first: u32,
    /// The index of the byte after its last.
    pub end: u32,
    /// Where its first byte is.
    pub place: Place,
}

/// Why a text has no list of tokens.
#[derive(Clone, Copy, Debug, Error)]
pub enum LexFault {
    /// A byte that can't be where it is.
    #[error("bad byte")]
    BadByte(Place),
    /// A comment that is not closed. The place is that of its first byte.
    #[error("comment is not closed")]
    OpenComment(Place),
    /// A number of 2^32 or more. The place is that of its first byte.
    #[error("number too large")]
    NumberTooLarge(Place),
    /// The first token past the limit of 200,000.
    #[error("too many tokens")]
    TooManyTokens(Place),
    /// There was no memory for the list.
    #[error("out of memory")]
    NoMemory,
}
