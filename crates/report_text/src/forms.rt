//! The forms of the lines of a report.
ghost use Rattle.std.specs.Prelude.{◌≡◌, ◌^◌, is_some};
ghost use Rattle.cell_grid.specs.Grid.{below};
ghost use Rattle.text_lines.specs.Fields.{fields, fields_left, hex_of, number_and_fields};
ghost use Rattle.text_lines.specs.Forms.{one_field, one_number, with};
ghost use Rattle.report_text.specs.Forms.{abandoned_form, count_form, is_atom, is_header, is_name_state, is_one, record_form, site_form, take_attempt, take_small};

use cell_grid::Record;
use event_journal::Abandoned;
use feast_base::is_type_name;
use text_lines::{first_field, one_field, one_number, one_seed, state, take_number};

/// The first field as a number below 2^32, and the other fields.
pub(crate) fn take_small(args: Option<&[u8]>) -> Option<(u32, Option<&[u8]>)>
    ensures { number_and_fields result ≡ take_small (fields_left args.entry) }
{
    let (n, rest) = take_number(args)?;
    if n < 1u128 << 32 {
        Some((n as u32, rest))
    } else {
        None
    }
}

/// The first field as a number below 2^64, and the other fields.
pub(crate) fn take_attempt(args: Option<&[u8]>) -> Option<(u64, Option<&[u8]>)>
    ensures { number_and_fields result ≡ take_attempt (fields_left args.entry) }
{
    let (n, rest) = take_number(args)?;
    if n < 1u128 << 64 {
        Some((n as u64, rest))
    } else {
        None
    }
}

/// The fields as a site and a seed.
fn site_form(args: Option<&[u8]>) -> Option<(u32, u32, u64)>
    ensures { result ≡ site_form (fields_left args.entry) }
{
    let (x, rest) = take_small(args)?;
    let (y, rest) = take_small(rest)?;
    let seed = one_seed(rest)?;
    Some((x, y, seed))
}

/// The fields as an event.
#[tactic(auto, unfolding(crate::specs::Forms::record_form))]
pub(crate) fn record_form(args: Option<&[u8]>) -> Option<Record>
    ensures { result ≡ record_form (fields_left args.entry) }
{
    let (stamp, rest) = take_small(args)?;
    let (tile, rest) = take_small(rest)?;
    let (attempt, rest) = take_attempt(rest)?;
    let (x, y, seed) = site_form(rest)?;
    Some(Record {
        stamp,
        tile,
        attempt,
        x,
        y,
        seed,
    })
}

/// The last field of a line as the number of an attempt.
pub(crate) fn last_attempt(args: Option<&[u8]>) -> Option<u64>
    ensures { result ≡ below (2 ^ 64) (one_number (fields_left args.entry)) }
{
    let n = one_number(args)?;
    if n < 1u128 << 64 {
        Some(n as u64)
    } else {
        None
    }
}

/// The fields as an abandoned attempt.
#[tactic(auto, unfolding(crate::specs::Forms::abandoned_form))]
pub(crate) fn abandoned_form(args: Option<&[u8]>) -> Option<Abandoned>
    ensures { result ≡ abandoned_form (fields_left args.entry) }
{
    let (tile, rest) = take_small(args)?;
    let (attempt, rest) = take_attempt(rest)?;
    let (x, rest) = take_small(rest)?;
    let (y, rest) = take_small(rest)?;
    let (edge, rest) = take_small(rest)?;
    let (holder, rest) = take_small(rest)?;
    let holder_attempt = last_attempt(rest)?;
    Some(Abandoned {
        tile,
        attempt,
        x,
        y,
        edge,
        holder,
        holder_attempt,
    })
}

/// The fields as a word and a count, if the word is this one.
#[tactic(auto, unfolding(crate::specs::Forms::count_form))]
pub(crate) fn count_form(word: &[u8], args: Option<&[u8]>) -> Option<u32>
    ensures { result ≡ count_form word.now (fields_left args.entry) }
{
    let (first, rest) = first_field(args?);
    if first != word {
        return None;
    }
    let n = one_number(rest)?;
    if n < 1u128 << 32 {
        Some(n as u32)
    } else {
        None
    }
}

/// Whether there is one field, and it is the digits of a state.
fn is_state(args: Option<&[u8]>) -> bool
    ensures { result ≡ is_some (with (one_field (fields_left args.entry)) (hex_of 18)) }
{
    match one_field(args) {
        None => false,
        Some(field) => state(field).is_some(),
    }
}

/// Whether the fields are the name of a type and the digits of a state.
#[tactic(auto, unfolding(crate::specs::Forms::is_name_state))]
fn is_name_state(args: Option<&[u8]>) -> bool
    ensures { result ≡ is_name_state (fields_left args.entry) }
{
    let Some(text) = args else {
        return false;
    };
    let (name, rest) = first_field(text);
    is_type_name(name) && is_state(rest)
}

/// Whether the fields are those of an atom.
#[tactic(auto, unfolding(crate::specs::Forms::is_atom))]
pub(crate) fn is_atom(args: Option<&[u8]>) -> bool
    ensures { result ≡ is_atom (fields_left args.entry) }
{
    let Some((_x, rest)) = take_small(args) else {
        return false;
    };
    match take_small(rest) {
        None => false,
        Some((_y, rest)) => is_name_state(rest),
    }
}

/// Whether there is one field, and it is `1`.
fn is_one(args: Option<&[u8]>) -> bool
    ensures { result ≡ is_one (one_field (fields_left args.entry)) }
{
    match one_field(args) {
        None => false,
        Some(field) => field == b"1".as_slice(),
    }
}

/// Whether a text has the fields of the first line of a report.
#[tactic(auto, unfolding(crate::specs::Forms::is_header))]
pub(crate) fn is_header(text: &[u8]) -> bool
    ensures { result ≡ is_header (fields text.now) }
{
    let (first, rest) = first_field(text);
    first == b"feast".as_slice() && is_one(rest)
}
