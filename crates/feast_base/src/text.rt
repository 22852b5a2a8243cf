//! Pieces of which all texts are made.
ghost use Rattle.std.specs.Prelude.{◌≡◌, ℕ, ◌*◌, ◌/◌, ◌%◌, ◌^◌, ◌≤◌, ◌<◌, decimal};
ghost use Rattle.feast_base.specs.Appending.{Appends};
ghost use Rattle.feast_base.specs.Digits.{glyph, hex};

use crate::NoMemory;
use itoa::Buffer;

/// Appends bytes. `NoMemory` if `out` can't grow.
pub fn push(out: &mut Vec<u8>, bytes: &[u8]) -> Result<(), NoMemory>
    ensures { Appends out.old.items out.new.items result bytes.now }
{
    out.extend_from_slice(bytes)?;
    Ok(())
}

/// Appends a number in decimal. `NoMemory` if `out` can't grow.
pub fn push_number(out: &mut Vec<u8>, n: u64) -> Result<(), NoMemory>
    ensures { Appends out.old.items out.new.items result (decimal n) }
{
    let mut buffer = Buffer::new();
    push(out, buffer.format(n).as_bytes())
}

/// The hexadecimal digit of a number at place `k`, in lower case.
fn digit_at(n: u128, k: u32) -> u8
    requires { k < 32 }
    ensures { result ≡ glyph (n / 2 ^ (4 * k) % 16) }
{
    let digit = ((n >> (4 * k)) % 16) as u8;
    if digit < 10 {
        b'0' + digit
    } else {
        b'a' + (digit - 10)
    }
}

/// Appends the low `count` hexadecimal digits of a number, the greatest first and in lower case.
/// `NoMemory` if `out` can't grow.
pub fn push_hex(out: &mut Vec<u8>, n: u128, count: u32) -> Result<(), NoMemory>
    requires { count ≤ 32 }
    ensures { Appends out.old.items out.new.items result (hex count n) }
{
    for k in (0..count).rev() {
        push(out, &[digit_at(n, k)])?;
    }
    Ok(())
}
