//! The form of the names of types.
ghost use Rattle.std.specs.Prelude.{◌≡◌};
ghost use Rattle.std.specs.List.{list_all};
ghost use Rattle.feast_base.specs.TypeNames.{is_type_name, is_word_byte};

/// The most bytes that a name has.
pub const LONGEST_NAME: usize = 255;

/// Whether it is a byte that a name may go on with: a letter, a digit or `_`.
pub fn is_word_byte(byte: u8) -> bool
    ensures { result ≡ is_word_byte byte }
{
    byte.is_ascii_alphanumeric() || byte == b'_'
}

/// Whether all are bytes that a name may go on with.
fn are_word_bytes(bytes: &[u8]) -> bool
    ensures { result ≡ list_all is_word_byte bytes.now }
{
    bytes.iter().all(|byte| is_word_byte(*byte))
}

/// Whether it is the name of a type: A to Z, then letters, digits and `_`, at most 255 bytes in
/// all.
pub fn is_type_name(text: &[u8]) -> bool
    ensures { result ≡ is_type_name text.now }
{
    match text {
        [first, rest @ ..] => {
            first.is_ascii_uppercase() && are_word_bytes(rest) && text.len() <= LONGEST_NAME
        }
        [] => false,
    }
}
