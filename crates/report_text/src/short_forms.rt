//! The forms of the lines of a short report.
ghost use Rattle.std.specs.Prelude.{◌≡◌};
ghost use Rattle.text_lines.specs.Fields.{fields, fields_left};
ghost use Rattle.text_lines.specs.Forms.{one_field};
ghost use Rattle.report_text.specs.Widened.{is_entry, is_long, is_short_header, is_two, short_abandoned_form, short_record_form};

use crate::forms::{
    abandoned_form, is_header, last_attempt, record_form, take_attempt, take_small,
};
use text_lines::{first_field, one_field};

/// What a short line says of an event.
#[derive(Drop)]
pub(crate) struct ShortRecord {
    pub(crate) stamp: u32,
    pub(crate) tile: u32,
    pub(crate) attempt: u64,
}

/// What a short line says of an abandoned attempt.
#[derive(Drop)]
pub(crate) struct ShortAbandoned {
    pub(crate) tile: u32,
    pub(crate) attempt: u64,
    pub(crate) edge: u32,
    pub(crate) holder: u32,
    pub(crate) holder_attempt: u64,
}

/// The fields as a short line of an event.
#[tactic(auto, unfolding(crate::specs::Widened::short_record_form))]
pub(crate) fn short_record_form(args: Option<&[u8]>) -> Option<ShortRecord>
    ensures { result ≡ short_record_form (fields_left args.entry) }
{
    let (stamp, rest) = take_small(args)?;
    let (tile, rest) = take_small(rest)?;
    let attempt = last_attempt(rest)?;
    Some(ShortRecord {
        stamp,
        tile,
        attempt,
    })
}

/// The fields as a short line of an abandoned attempt.
#[tactic(auto, unfolding(crate::specs::Widened::short_abandoned_form))]
pub(crate) fn short_abandoned_form(args: Option<&[u8]>) -> Option<ShortAbandoned>
    ensures { result ≡ short_abandoned_form (fields_left args.entry) }
{
    let (tile, rest) = take_small(args)?;
    let (attempt, rest) = take_attempt(rest)?;
    let (edge, rest) = take_small(rest)?;
    let (holder, rest) = take_small(rest)?;
    let holder_attempt = last_attempt(rest)?;
    Some(ShortAbandoned {
        tile,
        attempt,
        edge,
        holder,
        holder_attempt,
    })
}

/// Whether there is one field, and it is `2`.
fn is_two(args: Option<&[u8]>) -> bool
    ensures { result ≡ is_two (one_field (fields_left args.entry)) }
{
    match one_field(args) {
        None => false,
        Some(field) => field == b"2".as_slice(),
    }
}

/// Whether a text has the fields of the first line of a short report.
#[tactic(auto, unfolding(crate::specs::Widened::is_short_header))]
pub(crate) fn is_short_header(text: &[u8]) -> bool
    ensures { result ≡ is_short_header (fields text.now) }
{
    let (first, rest) = first_field(text);
    first == b"feast".as_slice() && is_two(rest)
}

/// Whether a text has the fields of an event, or of an abandoned attempt, of a whole report.
fn is_entry(text: &[u8]) -> bool
    ensures { result ≡ is_entry (fields text.now) }
{
    record_form(Some(text)).is_some() || abandoned_form(Some(text)).is_some()
}

/// Whether only a whole report has such a line.
pub(crate) fn is_long(text: &[u8]) -> bool
    ensures { result ≡ is_long (fields text.now) }
{
    is_header(text) || is_entry(text)
}
