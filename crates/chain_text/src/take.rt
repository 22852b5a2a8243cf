//! What the text of a line says.
ghost use Rattle.std.specs.Prelude.{◌≡◌, ◌≤◌, ◌∷◌, IfOk, IfSome, option_map};
ghost use Rattle.text_lines.specs.Fields.{fields, fields_left};
ghost use Rattle.text_lines.specs.Forms.{with};
ghost use Rattle.chain_text.specs.Forms.{act_by_word, act_form, chance_form, every_form, journal_form, legs_form, line_of, once_form, one_area, plain_line, put_form, take_area, version_form};
ghost use Rattle.chain_text.specs.Values.{act_value, area_value, line_value};
ghost use Rattle.world_text.specs.Forms.{line_of as world_line_of};
ghost use Rattle.world_text.specs.Values.{line_value as world_line_value};

use crate::chain::Journal;
use crate::chance::take_chance;
use crate::line::{ActLine, Area, Line};
use feast_base::NoMemory;
use std::alloc::Global;
use text_lines::{first_field, one_field, one_number, take_number};
use world_text::{line_of, name_state};

/// The area that the first four fields say, and the other fields.
fn take_area(args: Option<&[u8]>) -> Option<(Area, Option<&[u8]>)>
    ensures { option_map (λ r. (area_value r.0, fields_left r.1)) result ≡ take_area (fields_left args.entry) }
{
    let (x, rest) = take_number(args)?;
    let (y, rest) = take_number(rest)?;
    let (w, rest) = take_number(rest)?;
    let (h, rest) = take_number(rest)?;
    Some((Area { x, y, w, h }, rest))
}

/// The area that the fields say.
fn one_area(args: Option<&[u8]>) -> Option<Area>
    ensures { option_map area_value result ≡ one_area (fields_left args.entry) }
{
    match take_area(args)? {
        (area, None) => Some(area),
        (_, Some(_)) => None,
    }
}

/// An area, a name and perhaps a state.
fn put_form<'a>(args: Option<&'a [u8]>) -> Option<ActLine<'a>>
    ensures { option_map act_value result ≡ put_form (fields_left args.entry) }
{
    let (area, rest) = take_area(args)?;
    let (name, state) = name_state(rest)?;
    Some(ActLine::Put(area, name, state))
}

/// A chance and an area.
fn chance_form(args: Option<&[u8]>) -> Option<(u32, Area)>
    ensures { option_map (λ r. (r.0, area_value r.1)) result ≡ chance_form (fields_left args.entry) }
{
    let (chance, rest) = take_chance(args)?;
    let area = one_area(rest)?;
    Some((chance, area))
}

/// What an act's word and the fields after it say.
#[tactic(auto, unfolding(crate::specs::Forms::act_by_word))]
fn act_by_word<'a>(word: &[u8], args: Option<&'a [u8]>) -> Option<ActLine<'a>>
    ensures { option_map act_value result ≡ act_by_word word.now (fields_left args.entry) }
{
    if word == b"clear".as_slice() {
        let area = one_area(args)?;
        return Some(ActLine::Clear(area));
    }
    if word == b"put".as_slice() {
        return put_form(args);
    }
    if word == b"erase".as_slice() {
        let (chance, area) = chance_form(args)?;
        return Some(ActLine::Erase(chance, area));
    }
    if word == b"flip".as_slice() {
        let (chance, area) = chance_form(args)?;
        return Some(ActLine::Flip(chance, area));
    }
    if word == b"attempts".as_slice() {
        let count = one_number(args)?;
        return Some(ActLine::Attempts(count));
    }
    None
}

/// What the fields of an act say.
#[tactic(auto, unfolding(crate::specs::Forms::act_form))]
fn act_form<'a>(args: Option<&'a [u8]>) -> Option<ActLine<'a>>
    ensures { option_map act_value result ≡ act_form (fields_left args.entry) }
{
    let (word, rest) = first_field(args?);
    act_by_word(word, rest)
}

/// An act of many legs.
fn every_form<'a>(args: Option<&'a [u8]>) -> Option<Line<'a>>
    ensures { option_map line_value result ≡ every_form (fields_left args.entry) }
{
    let (period, rest) = take_number(args)?;
    match act_form(rest)? {
        ActLine::Attempts(_) => None,
        act => Some(Line::Every(period, act)),
    }
}

/// An act of one leg.
fn once_form<'a>(args: Option<&'a [u8]>) -> Option<Line<'a>>
    ensures { option_map line_value result ≡ once_form (fields_left args.entry) }
{
    let (leg, rest) = take_number(args)?;
    let act = act_form(rest)?;
    Some(Line::Act(leg, act))
}

/// The version of a chain.
fn version_form<'a>(args: Option<&'a [u8]>) -> Option<Line<'a>>
    ensures { option_map line_value result ≡ version_form (fields_left args.entry) }
{
    if one_field(args)? == b"1".as_slice() {
        Some(Line::Header)
    } else {
        None
    }
}

/// Which reports the legs have.
fn journal_form<'a>(args: Option<&'a [u8]>) -> Option<Line<'a>>
    ensures { option_map line_value result ≡ journal_form (fields_left args.entry) }
{
    let word = one_field(args)?;
    if word == b"whole".as_slice() {
        return Some(Line::Journal(Journal::Whole));
    }
    if word == b"short".as_slice() {
        return Some(Line::Journal(Journal::Short));
    }
    if word == b"none".as_slice() {
        return Some(Line::Journal(Journal::Counts { print: 1 }));
    }
    None
}

/// A line that a chain has too. None for a header, and for a line of a script or of an order.
fn plain_line<'a>(line: world_text::Line<'a>) -> Option<Line<'a>>
    ensures { option_map line_value result ≡ plain_line (world_line_value line.entry) }
{
    match line {
        world_text::Line::Header { .. }
        | world_text::Line::Try { .. }
        | world_text::Line::OrderSeed { .. }
        | world_text::Line::Order { .. } => None,
        _ => Some(Line::Plain(line)),
    }
}

/// What a line that a world has too says.
fn plain_form<'a>(alloc: Global, text: &'a [u8]) -> Result<Option<Line<'a>>, NoMemory>
    ensures { IfOk result (λ o. option_map line_value o ≡ with (world_line_of text.now) plain_line) }
{
    match line_of(alloc, text)? {
        Some(line) => Ok(plain_line(line)),
        None => Ok(None),
    }
}

/// What a line that says no act says, from its text and the first field of that.
#[tactic(auto, unfolding(crate::specs::Forms::legs_form, world_text::specs::Forms::form_of))]
fn legs_form<'a>(
    alloc: Global,
    text: &'a [u8],
    word: &[u8],
    args: Option<&'a [u8]>,
) -> Result<Option<Line<'a>>, NoMemory>
    requires { fields text.now ≡ word.now ∷ fields_left args }
    ensures { IfOk result (λ o. option_map line_value o ≡ legs_form word.now (fields_left args.entry)) }
{
    if word == b"chain".as_slice() {
        return Ok(version_form(args));
    }
    if word == b"legs".as_slice() {
        return match one_number(args) {
            Some(n) => Ok(Some(Line::Legs(n))),
            None => Ok(None),
        };
    }
    if word == b"first".as_slice() {
        return match one_number(args) {
            Some(n) => Ok(Some(Line::First(n))),
            None => Ok(None),
        };
    }
    if word == b"journal".as_slice() {
        return Ok(journal_form(args));
    }
    if word == b"print".as_slice() {
        return match one_number(args) {
            Some(n) => Ok(Some(Line::Print(n))),
            None => Ok(None),
        };
    }
    plain_form(alloc, text)
}

/// What a line says.
#[tactic(auto, unfolding(crate::specs::Forms::chain_form, crate::specs::Forms::form_of))]
pub(crate) fn line<'a>(alloc: Global, text: &'a [u8]) -> Result<Option<Line<'a>>, NoMemory>
    ensures { IfOk result (λ o. option_map line_value o ≡ line_of text.now) }
{
    let (word, args) = first_field(text);
    if word == b"every".as_slice() {
        return Ok(every_form(args));
    }
    if word == b"act".as_slice() {
        return Ok(once_form(args));
    }
    legs_form(alloc, text, word, args)
}
