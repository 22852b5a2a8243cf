//! The journal of a plane of one tile: no attempt is given up, so each is an event, in the order of
//! the attempts. Its gate is called before each, as a worker's is.
ghost use Rattle.std.specs.Prelude.{◌≡◌, ◌*◌, ◌<◌, ◌≤◌, ◌∷◌, [], All, IfOk, length};
ghost use Rattle.draw_stream.specs.declared.attempt.Attempt.{Attempt};
ghost use Rattle.draw_stream.specs.Plans.{attempts};
ghost use Rattle.event_journal.specs.Logs.{IsLog, abandoned_in, log_of, records_in};
ghost use Rattle.world_runs.specs.OneTile.{IsAlone, event_of, events_from, events_of};
ghost use Rattle.tile_map.specs.Plane.{IsMap, tiles_of};
ghost use Rattle.feast_base.specs.declared.limits.TheConstants.{MOST_ATTEMPTS};

use cell_grid::Record;
use draw_stream::{Attempt, AttemptPlan, Attempts};
use event_journal::{Journal, TileLog};
use feast_base::{Gate, NoMemory};
use std::alloc::Global;
use tile_map::Map;

/// The event of an attempt of tile 0, by the attempt's number.
fn event_of(map: &Map, number: u64, attempt: &Attempt) -> Record
    requires map { IsMap map.now }
    requires number { number < MOST_ATTEMPTS }
    requires centre { attempt.now.centre < map.now.w * map.now.h }
    requires some { 0 < tiles_of map.now }
    ensures { result ≡ event_of map.now (number, attempt.now) }
{
    let (x, y) = map.site_of(0, attempt.centre);
    Record {
        stamp: number as u32 + 1,
        tile: 0,
        attempt: number,
        x,
        y,
        seed: attempt.seed,
    }
}

/// The events of the attempts of tile 0. The gate is called before each.
fn events<G: Gate>(
    alloc: Global,
    map: &Map,
    mut attempts: Attempts,
    gate: &G,
) -> Result<Vec<Record>, NoMemory>
    requires map { IsMap map.now }
    requires few { length attempts ≤ MOST_ATTEMPTS }
    requires centres { All (λ (a : Attempt). a.centre < map.now.w * map.now.h) attempts }
    requires some { 0 < tiles_of map.now }
    ensures { IfOk result (λ v. v.items ≡ events_from map.now 0 attempts) }
{
    let mut records = Vec::new(alloc);
    let mut number = 0u64;
    while let Some(attempt) = attempts.next() {
        gate.reach(0, number);
        records.push(event_of(map, number, &attempt))?;
        number += 1;
    }
    Ok(records)
}

/// The journal of some events of tile 0.
fn journal_of(alloc: Global, records: Vec<Record>) -> Result<Journal, NoMemory>
    requires log { IsLog (log_of 0 records.items []) }
    requires few { length records.items ≤ MOST_ATTEMPTS }
    ensures { IfOk result (λ j. j ≡ log_of 0 records.items [] ∷ []) }
{
    let mut logs = Vec::new(alloc);
    logs.push(TileLog::new(0, records, Vec::new(alloc)))?;
    Ok(Journal::of_logs(logs))
}

/// The journal of a plane of one tile with these attempts: each is an event, and none is given up.
/// The gate is called before each, with the number of the tile, which is 0, and that of the
/// attempt. `NoMemory` if there is none for the events.
pub fn journal<G: Gate>(
    alloc: Global,
    map: &Map,
    plan: &AttemptPlan,
    gate: &G,
) -> Result<Journal, NoMemory>
    requires alone { IsAlone map.now plan.now }
    ensures logs { IfOk result (λ j. j ≡ log_of 0 (events_of map.now plan.now) [] ∷ []) }
    ensures records { IfOk result (λ j. records_in j ≡ events_of map.now plan.now) }
    ensures abandoned { IfOk result (λ j. abandoned_in j ≡ []) }
{
    let attempts = plan.of_tile(alloc, 0)?;
    let records = events(alloc, map, attempts, gate)?;
    journal_of(alloc, records)
}
