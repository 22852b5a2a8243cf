//! The whole report that a short one stands for.
ghost use Rattle.std.specs.Prelude.{◌≡◌, ◌<◌, ◌^◌, IfOk, List, Some, length};
ghost use Rattle.draw_stream.specs.declared.attempt.Attempt.{Attempt};
ghost use Rattle.feast_base.specs.Appending.{Appends};
ghost use Rattle.text_lines.specs.Fields.{Lacks, fields};
ghost use Rattle.text_lines.specs.Lines.{ended_line};
ghost use Rattle.tile_map.specs.Plane.{MapValue, tiles_of};
ghost use Rattle.report_text.specs.JournalText.{abandoned_fields, record_fields};
ghost use Rattle.report_text.specs.Tables.{lists_of};
ghost use Rattle.report_text.specs.Widened.{widened_abandoned, widened_line, widened_other, widened_record, widened_text};

use crate::line::{LONGEST_ABANDONED, LONGEST_RECORD, write_abandoned, write_record};
use crate::short_forms::{
    ShortAbandoned, ShortRecord, is_long, is_short_header, short_abandoned_form, short_record_form,
};
use crate::table::{place_of, table};
use cell_grid::Record;
use draw_stream::{Attempt, AttemptPlan};
use event_journal::Abandoned;
use feast_base::NoMemory;
use feast_base::text::push;
use std::alloc::Global;
use text_lines::next_ended;
use tile_map::Map;

/// An event with the site and the seed of its attempt.
fn widened_record(map: &Map, lists: &[Vec<Attempt>], short: &ShortRecord) -> Record
    requires { length lists.now ≡ tiles_of map.now }
    ensures { result ≡ widened_record map.now (lists_of lists.now) short.now }
{
    let (x, y, seed) = place_of(map, lists, short.tile, short.attempt);
    Record {
        stamp: short.stamp,
        tile: short.tile,
        attempt: short.attempt,
        x,
        y,
        seed,
    }
}

/// An abandoned attempt with its site.
fn widened_abandoned(map: &Map, lists: &[Vec<Attempt>], short: &ShortAbandoned) -> Abandoned
    requires { length lists.now ≡ tiles_of map.now }
    ensures { result ≡ widened_abandoned map.now (lists_of lists.now) short.now }
{
    let (x, y, _seed) = place_of(map, lists, short.tile, short.attempt);
    Abandoned {
        tile: short.tile,
        attempt: short.attempt,
        x,
        y,
        edge: short.edge,
        holder: short.holder,
        holder_attempt: short.holder_attempt,
    }
}

/// Appends the line of an event.
fn push_record(out: &mut Vec<u8>, entry: &Record) -> Result<(), NoMemory>
    ensures { Appends out.old.items out.new.items result (ended_line (record_fields entry.now)) }
{
    let mut line = [0; LONGEST_RECORD];
    let start = write_record(entry, &mut line);
    push(out, &line[start..])
}

/// Appends the line of an abandoned attempt.
fn push_abandoned(out: &mut Vec<u8>, entry: &Abandoned) -> Result<(), NoMemory>
    ensures { Appends out.old.items out.new.items result (ended_line (abandoned_fields entry.now)) }
{
    let mut line = [0; LONGEST_ABANDONED];
    let start = write_abandoned(entry, &mut line);
    push(out, &line[start..])
}

/// Appends a text and an LF.
#[tactic(auto, using(crate::proofs::WideLines::line_itself))]
fn push_same(out: &mut Vec<u8>, text: &[u8]) -> Result<(), NoMemory>
    ensures { Appends out.old.items out.new.items result (ended_line (fields text.now)) }
{
    push(out, text)?;
    push(out, b"\n")
}

/// Appends the line for which one stands that is no short event and no short abandoned attempt.
fn push_other(out: &mut Vec<u8>, text: &[u8]) -> Result<(), NoMemory>
    ensures { Appends out.old.items out.new.items result (ended_line (widened_other (fields text.now))) }
{
    if is_short_header(text) {
        push(out, b"feast 1\n")
    } else if is_long(text) {
        push(out, b"\n")
    } else {
        push_same(out, text)
    }
}

/// Appends the line for which a line stands.
fn push_widened(
    out: &mut Vec<u8>,
    map: &Map,
    lists: &[Vec<Attempt>],
    text: &[u8],
) -> Result<(), NoMemory>
    requires { length lists.now ≡ tiles_of map.now }
    ensures { Appends out.old.items out.new.items result (widened_line map.now (lists_of lists.now) (Some text.now)) }
{
    if let Some(short) = short_record_form(Some(text)) {
        push_record(out, &widened_record(map, lists, &short))
    } else if let Some(short) = short_abandoned_form(Some(text)) {
        push_abandoned(out, &widened_abandoned(map, lists, &short))
    } else {
        push_other(out, text)
    }
}

/// Appends what stands for a text without an LF.
fn push_last(out: &mut Vec<u8>, left: &[u8]) -> Result<(), NoMemory>
    requires { Lacks left.now 10 }
    ensures { (m : MapValue) (lists : List (List Attempt)) → Appends out.old.items out.new.items result (widened_text m lists left.now) }
{
    if left.is_empty() {
        Ok(())
    } else {
        push(out, b"?")
    }
}

/// The whole report that a text stands for, by a table of the attempts of each tile.
fn widened_by(
    alloc: Global,
    bytes: &[u8],
    map: &Map,
    lists: &[Vec<Attempt>],
) -> Result<Vec<u8>, NoMemory>
    requires { length lists.now ≡ tiles_of map.now }
    ensures { IfOk result (λ v. v.items ≡ widened_text map.now (lists_of lists.now) bytes.now) }
{
    let mut out = Vec::new(alloc);
    let mut left = bytes;
    while let Some((text, rest)) = next_ended(left) {
        push_widened(&mut out, map, lists, text)?;
        left = rest;
    }
    push_last(&mut out, left)?;
    Ok(out)
}

/// The whole report that the bytes of a short one stand for, by the map and the plan of its run: each
/// line of an event, or of an abandoned attempt, has the site and the seed of its attempt again. Line
/// by line it is read as the short report has to be: what is wrong with a line of the one is wrong with
/// that line of the other. The plan has a list of attempts for each tile. `NoMemory` if there is none
/// for the text or for the attempts.
pub fn widened(
    alloc: Global,
    bytes: &[u8],
    map: &Map,
    plan: &AttemptPlan,
) -> Result<Vec<u8>, NoMemory>
    requires plan { length plan.now.lists ≡ tiles_of map.now }
    ensures text { IfOk result (λ v. v.items ≡ widened_text map.now plan.now.lists bytes.now) }
    ensures short { IfOk result (λ v. length v.items < 2 ^ 63) }
{
    let lists = table(alloc, plan, map.tiles())?;
    let text = widened_by(alloc, bytes, map, lists.as_slice())?;
    Ok(text)
}
