//! Whether the abandoned attempts are excused.
ghost use Rattle.std.specs.Prelude.{◌≡◌, ◌*◌, ◌+◌, ◌<◌, ◌≤◌, ◌==◌, ◌↔◌, All, AllPairs, IfOk, IsFalse, IsTrue, MatchOption, length, ℕ};
ghost use Rattle.std.specs.List.{AllWithin, list_any};
ghost use Rattle.draw_stream.specs.Plans.{PlanValue};
ghost use Rattle.tile_map.specs.Edges.{needs_of, pairs_of};
ghost use Rattle.tile_map.specs.Laws.{Joins};
ghost use Rattle.tile_map.specs.Plane.{site, tiles_of};
ghost use Rattle.event_journal.specs.Accounts.{IsAccounted};
ghost use Rattle.event_journal.specs.Logs.{ComesBefore};
ghost use Rattle.event_journal.specs.declared.abandoned.Abandoned.{Abandoned};
ghost use Rattle.journal_check.specs.Clocks.{IsInside};
ghost use Rattle.journal_check.specs.Excuses.{FirstUnexcused, IsExcusedOn, IsFound, IsAbandonedInside, WasHeld, IsMissing, is_earlier};
ghost use Rattle.journal_check.specs.Marks.{AreApart, AreRising, HasMark, IsSplit, marks_on};

use crate::mark::Mark;
use crate::marks::{Marks, marks_at, marks_of};
use cell_grid::Record;
use event_journal::Abandoned;
use feast_base::NoMemory;
use std::alloc::Global;
use tile_map::Map;

/// How many marks are of attempts before this one.
fn behind(marks: &[Mark], attempt: u128) -> usize
    requires { AreRising marks.now }
    ensures { IsSplit marks.now attempt result }
{
    marks.partition_point(|mark| u128::from(mark.attempt) < attempt)
}

/// Whether each of the first marks before the attempt `below` has a smaller stamp than each of the
/// second from the attempt `from` on.
fn are_apart(first: &[Mark], below: u128, second: &[Mark], from: u128) -> bool
    requires first { AreRising first.now }
    requires second { AreRising second.now }
    ensures { IsTrue result ↔ (AreApart first.now below second.now from) }
{
    let end = behind(first, below);
    let start = behind(second, from);
    if end == 0 {
        return true;
    }
    if start == second.len() {
        return true;
    }
    first[end - 1].stamp < second[start].stamp
}

/// Whether one of the marks is of the attempt.
fn has_mark(marks: &[Mark], attempt: u64) -> bool
    requires { AreRising marks.now }
    ensures { IsTrue result ↔ (HasMark marks.now attempt) }
{
    let place = behind(marks, u128::from(attempt));
    if place == marks.len() {
        return false;
    }
    marks[place].attempt == attempt
}

/// How many abandoned attempts come before an attempt of a tile.
fn earlier(abandoned: &[Abandoned], tile: u32, attempt: u64) -> usize
    requires { AllPairs ComesBefore abandoned.now }
    ensures bound { result ≤ length abandoned.now }
    ensures before { AllWithin (λ (g : Abandoned). IsTrue (is_earlier tile attempt g)) abandoned.now 0 result }
    ensures from { AllWithin (λ (g : Abandoned). IsFalse (is_earlier tile attempt g)) abandoned.now result (length abandoned.now) }
{
    abandoned.partition_point(|gone| {
        gone.tile < tile || (gone.tile == tile && gone.attempt < attempt)
    })
}

/// The abandoned attempt of this tile and number, if there is one.
fn find(abandoned: &[Abandoned], tile: u32, attempt: u64) -> Option<Abandoned>
    requires { AllPairs ComesBefore abandoned.now }
    ensures { MatchOption result (IsMissing abandoned.now tile attempt) (IsFound abandoned.now tile attempt) }
{
    let place = earlier(abandoned, tile, attempt);
    if place == abandoned.len() {
        return None;
    }
    let found = abandoned[place];
    if found.tile != tile {
        return None;
    }
    if found.attempt == attempt {
        Some(found)
    } else {
        None
    }
}

/// Whether an event of a tile at a site needs an edge.
fn needs_edge(map: &Map, tile: u32, x: u32, y: u32, edge: u32) -> bool
    requires tile { tile < tiles_of map.now }
    requires x { x < map.now.tx * map.now.w }
    requires y { y < map.now.ty * map.now.h }
    ensures { result ≡ list_any (λ f. f == edge) (needs_of map.now tile (site x y)) }
{
    let needs = map.needs(tile, x, y);
    for i in 0..needs.len() {
        if needs.edge(i) == edge {
            return true;
        }
    }
    false
}

/// Whether an edge joins two tiles.
fn joins(map: &Map, edge: u32, tile: u32, holder: u32) -> bool
    requires { edge < length (pairs_of map.now) }
    ensures joins { IsTrue result ↔ (Joins map.now edge tile holder) }
    ensures holder { IsTrue result → holder < tiles_of map.now }
{
    let (lower, higher) = map.ends(edge);
    (lower == tile && higher == holder) || (lower == holder && higher == tile)
}

/// Whether the attempt that held the edge is among the marks of its tile, or was itself given up at
/// a greater edge and needs this one.
fn was_held(map: &Map, marks: &[Mark], abandoned: &[Abandoned], entry: &Abandoned) -> bool
    requires rising { AreRising marks.now }
    requires sorted { AllPairs ComesBefore abandoned.now }
    requires inside { All (IsAbandonedInside map.now) abandoned.now }
    ensures { IsTrue result ↔ (WasHeld map.now marks.now abandoned.now entry.now) }
{
    if has_mark(marks, entry.holder_attempt) {
        return true;
    }
    let Some(gone) = find(abandoned, entry.holder, entry.holder_attempt) else {
        return false;
    };
    if entry.edge >= gone.edge {
        return false;
    }
    needs_edge(map, gone.tile, gone.x, gone.y, entry.edge)
}

/// Whether an abandoned attempt is excused, by the marks of its edge.
fn is_excused(map: &Map, table: &[Marks], abandoned: &[Abandoned], entry: &Abandoned) -> bool
    requires here { IsAbandonedInside map.now entry.now }
    requires inside { All (IsAbandonedInside map.now) abandoned.now }
    requires sorted { AllPairs ComesBefore abandoned.now }
    requires many { length table.now ≡ length (pairs_of map.now) * tiles_of map.now }
    requires rising { All AreRising table.now }
    ensures { IsTrue result ↔ (IsExcusedOn map.now table.now abandoned.now entry.now) }
{
    if !needs_edge(map, entry.tile, entry.x, entry.y, entry.edge) {
        return false;
    }
    if !joins(map, entry.edge, entry.tile, entry.holder) {
        return false;
    }
    let own = marks_at(map, table, entry.edge, entry.tile);
    let other = marks_at(map, table, entry.edge, entry.holder);
    if !was_held(map, other, abandoned, entry) {
        return false;
    }
    let attempt = u128::from(entry.attempt);
    let held = u128::from(entry.holder_attempt);
    if !are_apart(own, attempt, other, held) {
        return false;
    }
    are_apart(other, held + 1, own, attempt + 1)
}

/// The first abandoned attempt that is not excused. `NoMemory` if there is none for the events of
/// each edge.
pub(crate) fn first_unexcused(
    alloc: Global,
    map: &Map,
    records: &[Record],
    abandoned: &[Abandoned],
) -> Result<Option<u64>, NoMemory>
    requires events { All (IsInside map.now) records.now }
    requires inside { All (IsAbandonedInside map.now) abandoned.now }
    requires sorted { AllPairs ComesBefore abandoned.now }
    requires rising { (e t : ℕ) → AreRising (marks_on map.now t e records.now) }
    ensures { (plan : PlanValue) → IsAccounted map.now plan records.now abandoned.now →
        IfOk result (FirstUnexcused map.now plan records.now abandoned.now) }
{
    map.laws();
    if abandoned.is_empty() {
        return Ok(None);
    }
    let table = marks_of(alloc, map, records)?;
    for k in 0..abandoned.len() {
        if !is_excused(map, table.as_slice(), abandoned, &abandoned[k]) {
            return Ok(Some(k as u64));
        }
    }
    Ok(None)
}
