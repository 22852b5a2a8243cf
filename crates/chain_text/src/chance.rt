//! Chances: decimals from 0 to 1.
ghost use Rattle.std.specs.Prelude.{◌≡◌, ◌≤◌, ◌<◌, ◌*◌, ◌-◌, ◌^◌, ◌++◌, IfSome, IsTrue, codes, length, option_map};
ghost use Rattle.std.specs.List.{list_all};
ghost use Rattle.text_lines.specs.Fields.{fields_left, is_digit, number_and_fields, worth};
ghost use Rattle.plane_acts.specs.declared.chance.TheConstants.{BILLION};
ghost use Rattle.chain_text.specs.Printed.{places};
ghost use Rattle.chain_text.specs.Forms.{are_places, billionths_of, chance_of, fraction_of, take_chance};

use plane_acts::BILLION;
use text_lines::first_field;

/// How many digits a billionth has after the point.
const PLACES: usize = 9;

/// Whether all bytes are digits.
fn are_digits(bytes: &[u8]) -> bool
    ensures { result ≡ list_all is_digit bytes.now }
{
    bytes.iter().all(|b| b'0' <= *b && *b <= b'9')
}

/// Whether there are one to nine digits, and nothing else.
fn are_places(bytes: &[u8]) -> bool
    ensures { result ≡ are_places bytes.now }
{
    are_digits(bytes) && (1 <= bytes.len() && bytes.len() <= PLACES)
}

/// What at most nine digits are worth.
fn worth(digits: &[u8]) -> u32
    requires digits { IsTrue (list_all is_digit digits.now) }
    requires few { length digits.now ≤ PLACES }
    ensures value { result ≡ worth digits.now }
    ensures bound { result < 10 ^ length digits.now }
{
    let mut value = 0u32;
    for digit in digits {
        value = value * 10 + (*digit - b'0') as u32;
    }
    value
}

/// The billionths that one to nine digits after the point say.
fn billionths(digits: &[u8]) -> u32
    requires { IsTrue (are_places digits.now) }
    ensures value { result ≡ billionths_of digits.now }
    ensures bound { result < BILLION }
{
    worth(digits) * 10u32.pow((PLACES - digits.len()) as u32)
}

/// The billionths of `0.` and one to nine digits. None for another form.
#[tactic(auto, unfolding(crate::specs::Forms::fraction_of))]
fn fraction(field: &[u8]) -> Option<u32>
    ensures value { result ≡ fraction_of field.now }
    ensures bound { IfSome result (λ p. p < BILLION) }
{
    let digits = field.strip_prefix(b"0.".as_slice())?;
    if are_places(digits) {
        Some(billionths(digits))
    } else {
        None
    }
}

/// The billionths of a chance: `0`, `1`, or `0.` and one to nine digits. None for another form.
#[tactic(auto, unfolding(crate::specs::Forms::chance_of))]
fn chance(field: &[u8]) -> Option<u32>
    ensures value { result ≡ chance_of field.now }
    ensures bound { IfSome result (λ p. p ≤ BILLION) }
{
    if field == b"0".as_slice() {
        return Some(0);
    }
    if field == b"1".as_slice() {
        return Some(BILLION);
    }
    fraction(field)
}

/// The text of a chance of so many billionths that is neither 0 nor 1: `0.` and nine digits.
pub(crate) fn fraction_text(billionths: u32) -> [u8; 11]
    ensures { result ≡ codes "0." ++ places 9 billionths }
{
    let mut text = *b"0.000000000";
    let mut left = billionths;
    for i in (2..11usize).rev() {
        text[i] = b'0' + (left % 10) as u8;
        left /= 10;
    }
    text
}

/// The chance that the first of some fields is, and the other fields. None if there is no field, or
/// the first is of another form.
#[tactic(auto, unfolding(crate::specs::Forms::take_chance))]
pub(crate) fn take_chance(args: Option<&[u8]>) -> Option<(u32, Option<&[u8]>)>
    ensures { number_and_fields result ≡ take_chance (fields_left args.entry) }
{
    let (first, rest) = first_field(args?);
    match chance(first) {
        Some(p) => Some((p, rest)),
        None => None,
    }
}
