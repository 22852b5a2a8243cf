//! Numbers as they are written.
ghost use Rattle.std.specs.Prelude.{◌≡◌, ◌+◌, ◌*◌, ◌<◌, ◌≤◌, ◌^◌, ◌==◌, length, slice_index, IfSome, IfNone, if◌then◌else◌};
ghost use Rattle.std.specs.Char.{digit_value, is_digit};
ghost use Rattle.std.specs.List.{prefix_len};
ghost use Rattle.ulam_lex.specs.Pieces.{prefix_of, radix_of, worth_after, IsNumeral, IsNumberToken};
ghost use Rattle.ulam_lex.specs.Starts.{IsBaseAt, digit_count, digits_of, rest_of};

/// The base that a number is written in.
#[derive(Clone, Copy)]
pub enum Base {
    Binary,
    Decimal,
    Hexadecimal,
}

impl Base {
    /// How many digits the base has.
    pub fn radix(self) -> u32
        ensures { result ≡ radix_of self }
    {
        match self {
            Base::Binary => 2,
            Base::Decimal => 10,
            Base::Hexadecimal => 16,
        }
    }

    /// How many bytes its numbers have before their digits.
    pub fn prefix_len(self) -> usize
        ensures { result ≡ length (prefix_of self) }
    {
        match self {
            Base::Binary | Base::Hexadecimal => 2,
            Base::Decimal => 0,
        }
    }
}

/// The base of the number at the front.
pub fn base_at(bytes: &[u8]) -> Base
    ensures { IsBaseAt result bytes.now }
{
    if bytes.starts_with(b"0x") {
        Base::Hexadecimal
    } else if bytes.starts_with(b"0b") {
        Base::Binary
    } else {
        Base::Decimal
    }
}

/// How many bytes at the front are digits of a radix.
fn digit_run(radix: u32, bytes: &[u8]) -> usize
    requires low { 2 ≤ radix }
    requires high { radix ≤ 36 }
    ensures { result ≡ prefix_len (λ d. is_digit d radix) bytes.now }
{
    bytes
        .iter()
        .take_while(|byte| (**byte as char).is_digit(radix))
        .count()
}

/// How many digits of a base are at the front. A decimal that begins with 0 has no other digit.
fn digit_count(base: Base, bytes: &[u8]) -> usize
    ensures { result ≡ digit_count base bytes.now }
{
    match base {
        Base::Binary => digit_run(2, bytes),
        Base::Decimal if starts_with(bytes, b'0') => 1,
        Base::Decimal => digit_run(10, bytes),
        Base::Hexadecimal => digit_run(16, bytes),
    }
}

/// Whether the bytes begin with this one.
fn starts_with(bytes: &[u8], byte: u8) -> bool
    requires { 0 < byte }
    ensures { result ≡ (slice_index bytes.now 0 == byte) }
{
    match bytes {
        [first, ..] => *first == byte,
        [] => false,
    }
}

/// The value of a digit, or 36 if it is not one.
fn digit_value(byte: u8) -> u32
    ensures value { result ≡ digit_value byte }
    ensures small { result ≤ 36 }
{
    match byte {
        b'0'..=b'9' => (byte - b'0') as u32,
        b'A'..=b'Z' => (byte - b'A') as u32 + 10,
        b'a'..=b'z' => (byte - b'a') as u32 + 10,
        _ => 36,
    }
}

/// A value with one more digit, if it is below 2^32.
fn with_digit(value: u32, radix: u32, digit: u8) -> Option<u32>
    ensures some { IfSome result (λ v. v ≡ value * radix + digit_value digit) }
    ensures none { IfNone result (2 ^ 32 ≤ value * radix + digit_value digit) }
{
    value.checked_mul(radix)?.checked_add(digit_value(digit))
}

/// The value of digits, if it is below 2^32.
pub fn worth(base: Base, digits: &[u8]) -> Option<u32>
    ensures some { IfSome result (λ v. v ≡ worth_after (radix_of base) 0 digits.now) }
    ensures none { IfNone result (2 ^ 32 ≤ worth_after (radix_of base) 0 digits.now) }
{
    let mut value = 0;
    for digit in digits {
        value = with_digit(value, base.radix(), *digit)?;
    }
    Some(value)
}

/// The length of the `u` after a number's digits: 1, or 0 if there is none.
pub fn suffix_len(rest: &[u8]) -> usize
    ensures { result ≡ (if (slice_index rest.now 0 == 117) then 1 else 0) }
{
    if starts_with(rest, b'u') { 1 } else { 0 }
}

/// The digits of the number at the front, which has this base, and the bytes after them.
pub fn digits_at(base: Base, bytes: &[u8]) -> (&[u8], &[u8])
    requires { IsBaseAt base bytes.now }
    ensures digits { result.0.now ≡ digits_of base bytes.now }
    ensures rest { result.1.now ≡ rest_of base bytes.now }
{
    let (_, body) = bytes.split_at(base.prefix_len());
    body.split_at(digit_count(base, body))
}

/// What the text of a number says.
#[derive(Clone, Copy)]
pub struct Numeral {
    /// The number.
    pub value: u32,
    /// Whether `u` follows it.
    pub unsigned: bool,
}

/// What the text of a number says. The text is that of a token of the kind `Number`.
pub fn numeral_of(text: &[u8]) -> Numeral
    requires { IsNumberToken text.now }
    ensures { IsNumeral text.now result.value result.unsigned }
{
    let base = base_at(text);
    let (digits, rest) = digits_at(base, text);
    match worth(base, digits) {
        Some(value) => Numeral {
            value,
            unsigned: starts_with(rest, b'u'),
        },
        None => unreachable!(),
    }
}
