//! What the text of a line says.
ghost use Rattle.std.specs.Prelude.{◌≡◌, option_map, IfOk};
ghost use Rattle.text_lines.specs.Fields.{fields_left};
ghost use Rattle.world_text.specs.Forms.{atom_form, line_of, name_state, numbers_of, order_form, plane_form, short_form, state_of, try_form, version_form};
ghost use Rattle.world_text.specs.Values.{line_value};

use crate::line::Line;
use feast_base::{NoMemory, is_type_name};
use std::alloc::Global;
use text_lines::{
    first_field, number, one_field, one_number, one_seed, state, take_number, two_numbers,
};

/// A `try` line.
fn try_form<'a>(args: Option<&'a [u8]>) -> Option<Line<'a>>
    ensures { option_map line_value result ≡ try_form (fields_left args.entry) }
{
    let (tile, rest) = take_number(args)?;
    let (x, rest) = take_number(rest)?;
    let (y, rest) = take_number(rest)?;
    let seed = one_seed(rest)?;
    Some(Line::Try { tile, x, y, seed })
}

/// The state that the fields after a name say: 0 if there are none.
#[tactic(auto, using(crate::proofs::Takes::state_some), unfolding(crate::specs::Forms::state_of))]
fn state_of(args: Option<&[u8]>) -> Option<u128>
    ensures { result ≡ state_of (fields_left args.entry) }
{
    match args {
        None => Some(0),
        // A space is no digit, so more fields than one are not the digits of a state.
        Some(text) => state(text),
    }
}

/// The name of a type, and the state that the field after it says, or 0 if there is none. None if
/// the fields have another form.
#[inline(never)]
#[tactic(auto, unfolding(crate::specs::Forms::name_state))]
pub fn name_state(args: Option<&[u8]>) -> Option<(&[u8], u128)>
    ensures { option_map (λ r. (r.0.now, r.1)) result ≡ name_state (fields_left args.entry) }
{
    let (name, rest) = first_field(args?);
    if is_type_name(name) {
        let state = state_of(rest)?;
        Some((name, state))
    } else {
        None
    }
}

/// An `atom` line.
fn atom_form<'a>(args: Option<&'a [u8]>) -> Option<Line<'a>>
    ensures { option_map line_value result ≡ atom_form (fields_left args.entry) }
{
    let (x, rest) = take_number(args)?;
    let (y, rest) = take_number(rest)?;
    let (name, state) = name_state(rest)?;
    Some(Line::Atom { x, y, name, state })
}

/// The numbers that the fields are.
fn numbers(alloc: Global, args: Option<&[u8]>) -> Result<Option<Vec<u128>>, NoMemory>
    ensures { IfOk result (λ o. option_map (λ v. v.items) o ≡ numbers_of (fields_left args.entry)) }
{
    let mut found = Vec::new(alloc);
    let mut left = args;
    while let Some(text) = left {
        let (first, after) = first_field(text);
        let Some(n) = number(first) else {
            return Ok(None);
        };
        found.push(n)?;
        left = after;
    }
    Ok(Some(found))
}

/// An `order` line: one or more numbers, or `seed` and a number.
#[tactic(auto, unfolding(crate::specs::Forms::order_form))]
fn order_form<'a>(alloc: Global, args: Option<&'a [u8]>) -> Result<Option<Line<'a>>, NoMemory>
    ensures { IfOk result (λ o. option_map line_value o ≡ order_form (fields_left args.entry)) }
{
    let Some(text) = args else {
        return Ok(None);
    };
    let (first, rest) = first_field(text);
    if first == b"seed".as_slice() {
        return match one_number(rest) {
            Some(seed) => Ok(Some(Line::OrderSeed { seed })),
            None => Ok(None),
        };
    }
    match numbers(alloc, args)? {
        Some(list) => Ok(Some(Line::Order { list })),
        None => Ok(None),
    }
}

/// A header.
fn version_form<'a>(args: Option<&'a [u8]>) -> Option<Line<'a>>
    ensures { option_map line_value result ≡ version_form (fields_left args.entry) }
{
    let version = one_field(args)?;
    if version == b"1".as_slice() {
        return Some(Line::Header { second: false });
    }
    if version == b"2".as_slice() {
        return Some(Line::Header { second: true });
    }
    None
}

/// A line of two numbers, or a header.
#[tactic(auto, unfolding(crate::specs::Forms::plane_form))]
fn plane_form<'a>(word: &[u8], args: Option<&'a [u8]>) -> Option<Line<'a>>
    ensures { option_map line_value result ≡ plane_form word.now (fields_left args.entry) }
{
    if word == b"size".as_slice() {
        let (w, h) = two_numbers(args)?;
        return Some(Line::Size { w, h });
    }
    if word == b"tiles".as_slice() {
        let (tx, ty) = two_numbers(args)?;
        return Some(Line::Tiles { tx, ty });
    }
    if word == b"feast".as_slice() {
        return version_form(args);
    }
    None
}

/// A line of one number or two.
#[tactic(auto, unfolding(crate::specs::Forms::short_form))]
fn short_form<'a>(word: &[u8], args: Option<&'a [u8]>) -> Option<Line<'a>>
    ensures { option_map line_value result ≡ short_form word.now (fields_left args.entry) }
{
    if word == b"off".as_slice() {
        let tile = one_number(args)?;
        return Some(Line::Off { tile });
    }
    if word == b"seed".as_slice() {
        let seed = one_number(args)?;
        return Some(Line::Seed { seed });
    }
    if word == b"attempts".as_slice() {
        let count = one_number(args)?;
        return Some(Line::Attempts { count });
    }
    plane_form(word, args)
}

/// What a line says. None if it has none of the forms of a world's lines. `NoMemory` if there is
/// none for the tiles of an `order` line.
#[tactic(auto, unfolding(crate::specs::Forms::form, crate::specs::Forms::form_of))]
pub fn line_of<'a>(alloc: Global, text: &'a [u8]) -> Result<Option<Line<'a>>, NoMemory>
    ensures { IfOk result (λ o. option_map line_value o ≡ line_of text.now) }
{
    let (word, args) = first_field(text);
    if word == b"try".as_slice() {
        return Ok(try_form(args));
    }
    if word == b"atom".as_slice() {
        return Ok(atom_form(args));
    }
    if word == b"order".as_slice() {
        return order_form(alloc, args);
    }
    Ok(short_form(word, args))
}
