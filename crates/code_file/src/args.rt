//! Reading the arguments of instructions.
ghost use Rattle.std.specs.Prelude.{◌≡◌, ◌≤◌};
ghost use Rattle.code_file.specs.Reading.{Gives, any_byte, array_at, field_at, fit_at, kind_at, kind_of, part_array_at, part_at, place_at, type_at, width_at};

use crate::field::Field;
use crate::halt::Halt;
use crate::numbers::number;
use sat_math::Kind;

/// The kind of number that a byte stands for.
fn kind_of(code: u64) -> Kind
    ensures { result ≡ kind_of code }
{
    if code == 0 {
        Kind::Int
    } else if code == 1 {
        Kind::Unsigned
    } else if code == 2 {
        Kind::Bits
    } else if code == 3 {
        Kind::Bool
    } else {
        Kind::Unary
    }
}

/// A kind of number, and the remaining bytes.
#[tactic(auto, unfolding(crate::specs::Reading::kind_at))]
fn kind(bytes: &[u8]) -> Result<(Kind, &[u8]), Halt>
    ensures { Gives (λ x. (x.0, x.1.now)) result (kind_at bytes.now) }
{
    let (code, rest) = number(bytes, 1, 0, 4)?;
    Ok((kind_of(code), rest))
}

/// A number of one byte, and the remaining bytes.
#[tactic(auto, unfolding(crate::specs::Reading::any_byte))]
pub fn any_byte(bytes: &[u8]) -> Result<(u8, &[u8]), Halt>
    ensures { Gives (λ x. (x.0, x.1.now)) result (any_byte bytes.now) }
{
    let (byte, rest) = number(bytes, 1, 0, 255)?;
    Ok((byte as u8, rest))
}

/// A place or the number of a function, and the remaining bytes.
#[tactic(auto, unfolding(crate::specs::Reading::place_at))]
pub fn place(bytes: &[u8]) -> Result<(u32, &[u8]), Halt>
    ensures { Gives (λ x. (x.0, x.1.now)) result (place_at bytes.now) }
{
    let (place, rest) = number(bytes, 4, 0, u64::from(u32::MAX))?;
    Ok((place as u32, rest))
}

/// The width of a number, and the remaining bytes.
#[tactic(auto, unfolding(crate::specs::Reading::width_at))]
pub fn width(bytes: &[u8]) -> Result<(u8, &[u8]), Halt>
    ensures { Gives (λ x. (x.0, x.1.now)) result (width_at bytes.now) }
{
    let (width, rest) = number(bytes, 1, 1, 64)?;
    Ok((width as u8, rest))
}

/// A type number up to a greatest one, and the remaining bytes.
#[tactic(auto, unfolding(crate::specs::Reading::type_at))]
pub fn type_number(bytes: &[u8], greatest: u16) -> Result<(u16, &[u8]), Halt>
    ensures { Gives (λ x. (x.0, x.1.now)) result (type_at greatest bytes.now) }
{
    let (kind, rest) = number(bytes, 2, 0, u64::from(greatest))?;
    Ok((kind as u16, rest))
}

/// A field, and the remaining bytes.
#[tactic(auto, unfolding(crate::specs::Reading::field_at))]
pub fn field(bytes: &[u8]) -> Result<(Field, &[u8]), Halt>
    ensures { Gives (λ x. (x.0, x.1.now)) result (field_at bytes.now) }
{
    let (first, rest) = any_byte(bytes)?;
    let (width, rest) = any_byte(rest)?;
    let (kind, rest) = kind(rest)?;
    Ok((Field { first, width, kind }, rest))
}

/// A slot and a field, and the remaining bytes.
#[tactic(auto, unfolding(crate::specs::Reading::part_at))]
pub fn part(bytes: &[u8]) -> Result<((u8, Field), &[u8]), Halt>
    ensures { Gives (λ x. (x.0, x.1.now)) result (part_at bytes.now) }
{
    let (slot, rest) = any_byte(bytes)?;
    let (field, rest) = field(rest)?;
    Ok(((slot, field), rest))
}

/// A field and the length of its array, and the remaining bytes.
#[tactic(auto, unfolding(crate::specs::Reading::array_at))]
pub fn array(bytes: &[u8]) -> Result<((Field, u8), &[u8]), Halt>
    ensures { Gives (λ x. (x.0, x.1.now)) result (array_at bytes.now) }
{
    let (field, rest) = field(bytes)?;
    let (length, rest) = any_byte(rest)?;
    Ok(((field, length), rest))
}

/// A slot, a field and the length of its array, and the remaining bytes.
#[tactic(auto, unfolding(crate::specs::Reading::part_array_at))]
pub fn part_array(bytes: &[u8]) -> Result<((u8, (Field, u8)), &[u8]), Halt>
    ensures { Gives (λ x. (x.0, x.1.now)) result (part_array_at bytes.now) }
{
    let (slot, rest) = any_byte(bytes)?;
    let (array, rest) = array(rest)?;
    Ok(((slot, array), rest))
}

/// A kind and a width, and the remaining bytes.
#[tactic(auto, unfolding(crate::specs::Reading::fit_at))]
pub fn fit(bytes: &[u8]) -> Result<((Kind, u8), &[u8]), Halt>
    ensures { Gives (λ x. (x.0, x.1.now)) result (fit_at bytes.now) }
{
    let (kind, rest) = kind(bytes)?;
    let (width, rest) = any_byte(rest)?;
    Ok(((kind, width), rest))
}
