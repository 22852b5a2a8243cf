//! Writing big-endian numbers.
ghost use Rattle.std.specs.Prelude.{◌≡◌, ◌*◌, ◌/◌, ◌%◌, ◌^◌, ◌≤◌, ◌<◌, ◌++◌, length};
ghost use Rattle.feast_base.specs.Appending.{Appends};
ghost use Rattle.code_file.specs.Numbers.{be, name_bytes, bytes_of_signed};

use feast_base::text::push;
use feast_base::{Name, NoMemory};

/// The byte of a number at a place. Place 0 is the lowest.
fn byte_of(n: u128, place: u32) -> u8
    requires { place < 8 }
    ensures { result ≡ n / 2 ^ (8 * place) % 256 }
{
    ((n >> (8 * place)) % 256) as u8
}

/// Appends this many low bytes of a number.
pub fn push_number(out: &mut Vec<u8>, n: u128, width: u32) -> Result<(), NoMemory>
    requires { width ≤ 8 }
    ensures { Appends out.old.items out.new.items result (be width n) }
{
    for place in (0..width).rev() {
        push(out, &[byte_of(n, place)])?;
    }
    Ok(())
}

/// Appends a number in nine bytes, in two's complement.
pub fn push_signed(out: &mut Vec<u8>, n: i128) -> Result<(), NoMemory>
    ensures { Appends out.old.items out.new.items result (bytes_of_signed n) }
{
    if n >= 0 {
        push(out, &[0])?;
        push_number(out, n as u128, 8)
    } else {
        push(out, &[255])?;
        push_number(
            out,
            u128::from(u64::MAX).saturating_sub((-1 - n) as u128),
            8,
        )
    }
}

/// Appends a name after its length.
pub fn push_name(out: &mut Vec<u8>, name: &Name) -> Result<(), NoMemory>
    ensures { Appends out.old.items out.new.items result (name_bytes name.now) }
{
    push_number(out, name.bytes().len() as u128, 4)?;
    push(out, name.bytes())
}
