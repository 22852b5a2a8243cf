//! Taking the fields of a line one after another. The fields that are left are a text, or none if
//! the line has ended.
ghost use Rattle.std.specs.Prelude.{◌≡◌, option_copied};
ghost use Rattle.text_lines.specs.Fields.{fields_left, number_and_fields};
ghost use Rattle.text_lines.specs.Forms.{one_field, one_number, one_seed, take_number, two_numbers};

use crate::cut::first_field;
use crate::numbers::{number, seed};

/// The number that the first of some fields is, and the other fields. None if there is no field, or
/// the first is not a number.
#[tactic(auto, unfolding(crate::specs::Forms::take_number))]
pub fn take_number(args: Option<&[u8]>) -> Option<(u128, Option<&[u8]>)>
    ensures { number_and_fields result ≡ take_number (fields_left args.entry) }
{
    let (first, rest) = first_field(args?);
    match number(first) {
        Some(n) => Some((n, rest)),
        None => None,
    }
}

/// The field, if there is exactly one.
#[tactic(auto, using(crate::proofs::Takes::two_fields), unfolding(crate::specs::Forms::one_field))]
pub fn one_field(args: Option<&[u8]>) -> Option<&[u8]>
    ensures { option_copied result ≡ one_field (fields_left args.entry) }
{
    match first_field(args?) {
        (first, None) => Some(first),
        (_, Some(_)) => None,
    }
}

/// The number that the one field is. None if there is no field, more than one, or it is not a
/// number.
pub fn one_number(args: Option<&[u8]>) -> Option<u128>
    ensures { result ≡ one_number (fields_left args.entry) }
{
    number(one_field(args)?)
}

/// The number whose 16 digits the one field is. None if there is no field, more than one, or one of
/// another form.
#[tactic(auto, using(crate::proofs::Takes::digits_alone, crate::proofs::Takes::no_digits))]
pub fn one_seed(args: Option<&[u8]>) -> Option<u64>
    ensures { result ≡ one_seed (fields_left args.entry) }
{
    // A space is no digit, so more fields than one are not the digits of a seed.
    seed(args?)
}

/// The two numbers that the fields are. None if there are fewer or more, or one is not a number.
pub fn two_numbers(args: Option<&[u8]>) -> Option<(u128, u128)>
    ensures { result ≡ two_numbers (fields_left args.entry) }
{
    let (a, rest) = take_number(args)?;
    let b = one_number(rest)?;
    Some((a, b))
}
