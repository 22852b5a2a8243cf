//! The entries of one tile, taken beside its attempts.
ghost use Rattle.std.specs.Prelude.{◌≡◌, ◌<◌, ◌*◌, ◌^◌, All, length};
ghost use Rattle.event_journal.specs.Logs.{of_tile, abandoned_by};
ghost use Rattle.draw_stream.specs.declared.attempt.Attempt.{Attempt};
ghost use Rattle.tile_map.specs.Plane.{tiles_of};
ghost use Rattle.journal_check.specs.Entries.{are_entries, are_none, is_at, is_event};
ghost use Rattle.journal_check.specs.Passing.{IsFirstAbandoned, IsFirstOf, TakesAbandoned, TakesEntry, drawn_attempt};

use cell_grid::Record;
use draw_stream::{Attempt, Attempts};
use event_journal::Abandoned;
use tile_map::Map;

/// The events from the tile's next one on.
fn from_next<'a>(records: &'a [Record], tile: u32) -> &'a [Record]
    ensures same { of_tile tile result.now ≡ of_tile tile records.entry.now }
    ensures first { IsFirstOf tile result.now }
{
    let mut left = records;
    while let Some((first, rest)) = left.split_first() {
        if first.tile == tile {
            return left;
        }
        left = rest;
    }
    left
}

/// The abandoned attempts from the tile's next one on.
fn from_next_abandoned<'a>(abandoned: &'a [Abandoned], tile: u32) -> &'a [Abandoned]
    ensures same { abandoned_by tile result.now ≡ abandoned_by tile abandoned.entry.now }
    ensures first { IsFirstAbandoned tile result.now }
{
    let mut left = abandoned;
    while let Some((first, rest)) = left.split_first() {
        if first.tile == tile {
            return left;
        }
        left = rest;
    }
    left
}

/// Whether a position of a tile's rectangle is the site.
fn is_at(map: &Map, tile: u32, centre: u32, x: u32, y: u32) -> bool
    requires tile { tile < tiles_of map.now }
    requires centre { centre < map.now.w * map.now.h }
    ensures { result ≡ is_at map.now tile centre x y }
{
    map.site_of(tile, centre) == (x, y)
}

/// Whether an event is that of an attempt of a tile, by its site and its seed.
fn is_event(map: &Map, tile: u32, attempt: &Attempt, entry: &Record) -> bool
    requires tile { tile < tiles_of map.now }
    requires centre { attempt.now.centre < map.now.w * map.now.h }
    ensures { result ≡ is_event map.now tile attempt.now entry.now }
{
    is_at(map, tile, attempt.centre, entry.x, entry.y) && attempt.seed == entry.seed
}

/// The events and the abandoned attempts that come after the entry of an attempt, if the next one
/// that the tile gave up is the attempt of this number. Each list is empty or begins with an entry
/// of the tile.
fn passed_abandoned<'a>(
    map: &Map,
    tile: u32,
    number: u64,
    attempt: &Attempt,
    records: &'a [Record],
    abandoned: &'a [Abandoned],
) -> Option<(&'a [Record], &'a [Abandoned])>
    requires tile { tile < tiles_of map.now }
    requires centre { attempt.now.centre < map.now.w * map.now.h }
    requires first { IsFirstAbandoned tile abandoned.now }
    ensures { TakesAbandoned map.now (drawn_attempt tile number attempt.now) records.entry.now abandoned.entry.now result }
{
    let Some((first, others)) = abandoned.split_first() else {
        return None;
    };
    if first.attempt != number {
        return None;
    }
    if is_at(map, tile, attempt.centre, first.x, first.y) {
        Some((records, others))
    } else {
        None
    }
}

/// The events and the abandoned attempts that come after the entry of an attempt, if the tile's
/// next event has its number, or else the next attempt that the tile gave up, and that entry is
/// right.
fn take_entry<'a>(
    map: &Map,
    tile: u32,
    number: u64,
    attempt: &Attempt,
    records: &'a [Record],
    abandoned: &'a [Abandoned],
) -> Option<(&'a [Record], &'a [Abandoned])>
    requires tile { tile < tiles_of map.now }
    requires centre { attempt.now.centre < map.now.w * map.now.h }
    ensures { TakesEntry map.now (drawn_attempt tile number attempt.now) records.entry.now abandoned.entry.now result }
{
    let events = from_next(records, tile);
    let gone = from_next_abandoned(abandoned, tile);
    let Some((first, others)) = events.split_first() else {
        return passed_abandoned(map, tile, number, attempt, events, gone);
    };
    if first.attempt != number {
        return passed_abandoned(map, tile, number, attempt, events, gone);
    }
    if is_event(map, tile, attempt, first) {
        Some((others, gone))
    } else {
        None
    }
}

/// Whether neither the events nor the abandoned attempts have one of a tile.
fn are_none(tile: u32, records: &[Record], abandoned: &[Abandoned]) -> bool
    ensures { result ≡ are_none (of_tile tile records.now) (abandoned_by tile abandoned.now) }
{
    from_next(records, tile).is_empty() && from_next_abandoned(abandoned, tile).is_empty()
}

/// Whether the events and the abandoned attempts of a tile are its attempts, each once, and nothing
/// else.
pub(crate) fn are_entries(
    map: &Map,
    tile: u32,
    mut attempts: Attempts,
    records: &[Record],
    abandoned: &[Abandoned],
) -> bool
    requires tile { tile < tiles_of map.now }
    requires few { length attempts < 2 ^ 32 }
    requires centres { All (λ (a : Attempt). a.centre < map.now.w * map.now.h) attempts }
    ensures { result ≡ are_entries map.now tile 0 attempts (of_tile tile records.now) (abandoned_by tile abandoned.now) }
{
    let mut events = records;
    let mut gone = abandoned;
    let mut number = 0u64;
    while let Some(attempt) = attempts.next() {
        let Some((others, more)) = take_entry(map, tile, number, &attempt, events, gone) else {
            return false;
        };
        events = others;
        gone = more;
        number += 1;
    }
    are_none(tile, events, gone)
}
