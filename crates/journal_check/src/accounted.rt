//! Whether each attempt has its one entry.
ghost use Rattle.std.specs.Prelude.{◌≡◌, ◌<◌, ◌↔◌, All, AllPairs, IfOk, IsTrue, length};
ghost use Rattle.cell_grid.specs.Records.{Precedes};
ghost use Rattle.cell_grid.specs.declared.record.Record.{Record};
ghost use Rattle.event_journal.specs.Accounts.{IsAccounted};
ghost use Rattle.event_journal.specs.Logs.{ComesBefore};
ghost use Rattle.event_journal.specs.declared.abandoned.Abandoned.{Abandoned};
ghost use Rattle.journal_check.specs.Entries.{IsPlanOf};

use crate::by_tile::{abandoned_of, events_by_tile};
use crate::entries::are_entries;
use cell_grid::Record;
use draw_stream::AttemptPlan;
use event_journal::Abandoned;
use feast_base::NoMemory;
use std::alloc::Global;
use tile_map::Map;

/// Whether the events are in the order of a journal.
fn are_in_order(records: &[Record]) -> bool
    ensures { IsTrue result ↔ (AllPairs Precedes records.now) }
{
    for i in 1..records.len() {
        if !records[i - 1].precedes(&records[i]) {
            return false;
        }
    }
    true
}

/// Whether an abandoned attempt comes before another: by tile, and then by attempt.
fn comes_before(first: &Abandoned, second: &Abandoned) -> bool
    ensures { IsTrue result ↔ (ComesBefore first.now second.now) }
{
    first.tile < second.tile || (first.tile == second.tile && first.attempt < second.attempt)
}

/// Whether the abandoned attempts are ordered by tile and then attempt.
fn are_sorted(abandoned: &[Abandoned]) -> bool
    ensures { IsTrue result ↔ (AllPairs ComesBefore abandoned.now) }
{
    for i in 1..abandoned.len() {
        if !comes_before(&abandoned[i - 1], &abandoned[i]) {
            return false;
        }
    }
    true
}

/// Whether the events are of tiles below this number.
fn are_of_tiles(records: &[Record], tiles: u32) -> bool
    ensures { IsTrue result ↔ (All (λ (r : Record). r.tile < tiles) records.now) }
{
    for entry in records {
        if entry.tile >= tiles {
            return false;
        }
    }
    true
}

/// Whether the abandoned attempts are of tiles below this number.
fn are_abandoned_by_tiles(abandoned: &[Abandoned], tiles: u32) -> bool
    ensures { IsTrue result ↔ (All (λ (g : Abandoned). g.tile < tiles) abandoned.now) }
{
    for entry in abandoned {
        if entry.tile >= tiles {
            return false;
        }
    }
    true
}

/// Whether each attempt of each tile has one entry, an event or an abandoned attempt, at its site
/// and with its seed, and there are no others; both lists are in order, and of two events of a tile
/// the later attempt has the greater stamp. For n entries and abandoned attempts the time is of the
/// order n. `NoMemory` if there is none for the events of the tiles or the attempts of one.
pub(crate) fn is_accounted(
    alloc: Global,
    map: &Map,
    plan: &AttemptPlan,
    records: &[Record],
    abandoned: &[Abandoned],
) -> Result<bool, NoMemory>
    requires { IsPlanOf map.now plan.now }
    ensures { IfOk result (λ b. IsTrue b ↔ (IsAccounted map.now plan.now records.now abandoned.now)) }
{
    let tiles = map.tiles();
    if !are_in_order(records) {
        return Ok(false);
    }
    if !are_sorted(abandoned) {
        return Ok(false);
    }
    if !are_of_tiles(records, tiles) {
        return Ok(false);
    }
    if !are_abandoned_by_tiles(abandoned, tiles) {
        return Ok(false);
    }
    let table = events_by_tile(alloc, plan, tiles, records)?;
    for tile in 0..tiles {
        let attempts = plan.of_tile(alloc, tile)?;
        let events = &table[tile as usize];
        let gone = abandoned_of(abandoned, tile);
        if !are_entries(map, tile, attempts, events.as_slice(), gone) {
            return Ok(false);
        }
    }
    Ok(true)
}
