//! The bytes that pieces of a text are made of.
ghost use Rattle.std.specs.Prelude.{◌≡◌, bytes_eq};
ghost use Rattle.std.specs.List.{list_any};
ghost use Rattle.feast_base.specs.TypeNames.{is_word_byte};
ghost use Rattle.ulam_lex.specs.Bytes.{is_white, class_of, is_keyword, is_sign};

/// What a piece that begins with a byte may be.
#[derive(Clone, Copy)]
pub enum Class {
    /// White space.
    White,
    /// A name or a keyword.
    Small,
    /// A type name.
    Capital,
    /// A number.
    Digit,
    /// A comment, a sign, or nothing.
    Mark,
}

/// Whether a byte is white space.
pub fn is_white(byte: u8) -> bool
    ensures { result ≡ is_white byte }
{
    byte == b' ' || byte == b'\t' || byte == b'\r' || byte == b'\n'
}

/// Whether a byte is a letter, a digit or `_`.
pub fn is_word_byte(byte: u8) -> bool
    ensures { result ≡ is_word_byte byte }
{
    byte.is_ascii_alphanumeric() || byte == b'_'
}

/// What a piece that begins with a byte may be.
pub fn class_of(byte: u8) -> Class
    ensures { result ≡ class_of byte }
{
    if is_white(byte) {
        Class::White
    } else if byte.is_ascii_lowercase() || byte == b'_' {
        Class::Small
    } else if byte.is_ascii_uppercase() {
        Class::Capital
    } else if byte.is_ascii_digit() {
        Class::Digit
    } else {
        Class::Mark
    }
}

/// Whether a text is one of some words.
fn is_among(words: &[&str], text: &[u8]) -> bool
    ensures { result ≡ list_any (λ word. bytes_eq word.now text.now) words.now }
{
    words.iter().any(|word| word.as_bytes() == text)
}

/// The words that are not names.
const KEYWORDS: [&str; 19] = [
    "element",
    "quark",
    "ulam",
    "use",
    "typedef",
    "constant",
    "if",
    "else",
    "while",
    "for",
    "return",
    "break",
    "continue",
    "is",
    "as",
    "self",
    "true",
    "false",
    "instanceof",
];

/// Whether a word is a keyword.
#[tactic(auto, unfolding(crate::specs::Bytes::keywords))]
pub fn is_keyword(word: &[u8]) -> bool
    ensures { result ≡ is_keyword word.now }
{
    is_among(&KEYWORDS, word)
}

/// The signs.
const SIGNS: [&str; 43] = [
    "{", "}", "(", ")", "[", "]", ";", ":", ",", ".", "=", "==", "!=", "<", "<=", ">", ">=", "+",
    "-", "*", "/", "%", "&", "|", "^", "~", "!", "&&", "||", "<<", ">>", "++", "--", "+=", "-=",
    "*=", "/=", "%=", "&=", "|=", "^=", "<<=", ">>=",
];

/// Whether a text is a sign.
#[tactic(auto, unfolding(crate::specs::Bytes::signs))]
pub fn is_sign(text: &[u8]) -> bool
    ensures { result ≡ is_sign text.now }
{
    is_among(&SIGNS, text)
}
