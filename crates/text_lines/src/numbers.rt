//! The numbers and digits that fields are.
ghost use Rattle.std.specs.Prelude.{◌≡◌, IfSome, IsTrue, None, Some, ◌&&◌, ◌-◌, ◌<◌, ◌≤◌, ◌^◌, if◌then◌else◌, length};
ghost use Rattle.std.specs.List.{list_all};
ghost use Rattle.text_lines.specs.Fields.{hex_of, hex_worth, is_canonical, is_digit, is_nibble, nibble, field_number, worth};

/// The value of a decimal digit. None for another byte.
fn digit(byte: u8) -> Option<u8>
    ensures value { result ≡ (if is_digit byte then Some (byte - 48) else None) }
    ensures small { IfSome result (λ d. d < 10) }
{
    match byte {
        b'0'..=b'9' => Some(byte - b'0'),
        _ => None,
    }
}

/// What at most 20 decimal digits are worth. None if a byte is not one.
fn worth(bytes: &[u8]) -> Option<u128>
    requires { length bytes.now ≤ 20 }
    ensures { result ≡ (if list_all is_digit bytes.now then Some (worth bytes.now) else None) }
{
    let mut value = 0u128;
    for byte in bytes {
        value = value * 10 + digit(*byte)? as u128;
    }
    Some(value)
}

/// What at most 19 decimal digits are worth. None if a byte is not one.
fn small_worth(bytes: &[u8]) -> Option<u64>
    requires { length bytes.now ≤ 19 }
    ensures { result ≡ (if list_all is_digit bytes.now then Some (worth bytes.now) else None) }
{
    let mut value = 0u64;
    for byte in bytes {
        value = value * 10 + digit(*byte)? as u64;
    }
    Some(value)
}

/// Whether a number may have these digits: from 1 to 20, and no 0 before others.
fn is_canonical(digits: &[u8]) -> bool
    ensures canonical { is_canonical digits.now ≡ (list_all is_digit digits.now && result) }
    ensures few { IsTrue result → length digits.now ≤ 20 }
{
    match digits {
        [first, rest @ ..] => (*first != b'0' || rest.is_empty()) && digits.len() <= 20,
        [] => false,
    }
}

/// The number that a field is: a canonical decimal of at most 20 digits. None if it is not one.
pub fn number(field: &[u8]) -> Option<u128>
    ensures { result ≡ field_number field.now }
{
    if !is_canonical(field) {
        return None;
    }
    if field.len() <= 19 {
        Some(small_worth(field)? as u128)
    } else {
        worth(field)
    }
}

/// The value of a lower-case hexadecimal digit. None for another byte.
fn nibble(byte: u8) -> Option<u8>
    ensures value { result ≡ (if is_nibble byte then Some (nibble byte) else None) }
    ensures small { IfSome result (λ d. d < 16) }
{
    match byte {
        b'0'..=b'9' => Some(byte - b'0'),
        b'a'..=b'f' => Some(byte - b'a' + 10),
        _ => None,
    }
}

/// What at most 16 lower-case hexadecimal digits are worth. None if a byte is not one.
fn hex_worth(bytes: &[u8]) -> Option<u64>
    requires { length bytes.now ≤ 16 }
    ensures value { result ≡ (if list_all is_nibble bytes.now then Some (hex_worth bytes.now) else None) }
    ensures bound { IfSome result (λ n. n < 16 ^ length bytes.now) }
{
    let mut value = 0u64;
    for byte in bytes {
        value = value * 16 + nibble(*byte)? as u64;
    }
    Some(value)
}

/// The number that a field of 18 lower-case hexadecimal digits is, below 2^72. None if it is not
/// one.
#[inline(never)]
pub fn state(field: &[u8]) -> Option<u128>
    ensures value { result ≡ hex_of 18 field.now }
    ensures bound { IfSome result (λ n. n < 2 ^ 72) }
{
    if field.len() != 18 {
        return None;
    }
    let high = hex_worth(&field[..2])?;
    let low = hex_worth(&field[2..])?;
    Some(high as u128 * (1u128 << 64) + low as u128)
}

/// The number that a field of 16 lower-case hexadecimal digits is. None if it is not one.
#[inline(never)]
pub fn seed(field: &[u8]) -> Option<u64>
    ensures { result ≡ hex_of 16 field.now }
{
    if field.len() == 16 {
        hex_worth(field)
    } else {
        None
    }
}
