//! Reading big-endian numbers.
ghost use Rattle.std.specs.Prelude.{◌≡◌, ◌≤◌, ◌<◌, ◌^◌, IfOk, pos, negsuc, ◌≤ℤ◌};
ghost use Rattle.code_file.specs.Reading.{Gives, digit_at, is_sign, may_be, number_at, signed_at, signed_rest};

use crate::halt::Halt;

/// Whether the first bytes of a number are within those of two bounds; this many bytes are still to
/// come.
fn may_be(left: u32, least: u64, greatest: u64, value: u128) -> bool
    requires { left < 8 }
    ensures { result ≡ may_be left least greatest value }
{
    u128::from(least >> (8 * left)) <= value && value <= u128::from(greatest >> (8 * left))
}

/// The next byte of a number, after the value of the bytes before it; this many are still to come.
fn digit(
    bytes: &[u8],
    left: u32,
    least: u64,
    greatest: u64,
    value: u64,
) -> Result<(u64, &[u8]), Halt>
    requires { left < 8 }
    ensures gives { Gives (λ x. (x.0, x.1.now)) result (digit_at left least greatest value bytes.now) }
    ensures range { IfOk result (λ x. x.0 ≤ greatest) }
{
    match bytes {
        [byte, rest @ ..] => {
            let next = u128::from(value) * 256 + u128::from(*byte);
            if may_be(left, least, greatest, next) {
                Ok((next as u64, rest))
            } else {
                Err(Halt::Bad(bytes.len()))
            }
        }
        [] => Err(Halt::Bad(0)),
    }
}

/// A number of this many bytes between two bounds, and the remaining bytes.
pub fn number(bytes: &[u8], width: u32, least: u64, greatest: u64) -> Result<(u64, &[u8]), Halt>
    requires { width ≤ 8 }
    ensures gives { Gives (λ x. (x.0, x.1.now)) result (number_at width least greatest bytes.now) }
    ensures range { IfOk result (λ x. x.0 ≤ greatest) }
{
    let mut value = 0u64;
    let mut rest = bytes;
    for left in (0..width).rev() {
        let (next, after) = digit(rest, left, least, greatest, value)?;
        value = next;
        rest = after;
    }
    Ok((value, rest))
}

/// A number of 8 bytes after its sign byte, and the remaining bytes.
fn signed_rest(sign: u8, bytes: &[u8]) -> Result<(i128, &[u8]), Halt>
    ensures { Gives (λ x. (x.0, x.1.now)) result (signed_rest sign bytes.now) }
{
    if sign == 0 {
        let (n, rest) = number(bytes, 8, 0, u64::MAX)?;
        Ok((i128::from(n), rest))
    } else {
        let (n, rest) = number(bytes, 8, 1 << 63, u64::MAX)?;
        Ok((-1 - i128::from(u64::MAX - n), rest))
    }
}

/// A number in nine bytes, in two's complement, and the remaining bytes.
#[tactic(auto, unfolding(crate::specs::Reading::signed_at))]
pub fn signed_number(bytes: &[u8]) -> Result<(i128, &[u8]), Halt>
    ensures { Gives (λ x. (x.0, x.1.now)) result (signed_at bytes.now) }
{
    match bytes {
        [sign, rest @ ..] if *sign == 0 || *sign == 255 => signed_rest(*sign, rest),
        _ => Err(Halt::Bad(bytes.len())),
    }
}
