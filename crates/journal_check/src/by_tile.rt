//! The entries of a report, tile by tile.
ghost use Rattle.std.specs.Prelude.{◌≡◌, ◌≤◌, ◌<◌, ◌++◌, ◌∷◌, [], All, AllPairs, IfOk, OnOk, length, replicate};
ghost use Rattle.std.specs.List.{AllWithin};
ghost use Rattle.cell_grid.specs.declared.record.Record.{Record};
ghost use Rattle.event_journal.specs.Logs.{ComesBefore, abandoned_by};
ghost use Rattle.event_journal.specs.declared.abandoned.Abandoned.{Abandoned};
ghost use Rattle.journal_check.specs.ByTile.{AreByTile};

use cell_grid::Record;
use draw_stream::AttemptPlan;
use event_journal::Abandoned;
use feast_base::NoMemory;
use std::alloc::Global;
use std::marker::Model;

/// The events of one tile, in the order of the journal.
#[derive(Drop)]
pub(crate) struct TileEvents {
    list: Vec<Record>,
}

impl Model for TileEvents {
    ghost use Rattle.std.specs.Prelude.{List};
    ghost use Rattle.cell_grid.specs.declared.record.Record.{Record};

    ghost Value = { List Record };

    ghost view = { λ e. e.list.items };
}

impl TileEvents {
    /// No events, and room for so many.
    fn with_room(alloc: Global, events: u64) -> Result<TileEvents, NoMemory>
        ensures { IfOk result (λ e. e ≡ []) }
    {
        Ok(TileEvents {
            list: Vec::with_capacity(alloc, events as usize)?,
        })
    }

    /// Appends an event.
    fn push(&mut self, entry: Record) -> Result<(), NoMemory>
        ensures { OnOk result (self.new ≡ self.old ++ entry ∷ []) }
    {
        self.list.push(entry)?;
        Ok(())
    }

    /// The events as a slice.
    pub(crate) fn as_slice(&self) -> &[Record]
        ensures { result.now ≡ self.now }
    {
        self.list.as_slice()
    }
}

/// For each tile no events, and room for as many as it has attempts.
fn no_events(alloc: Global, plan: &AttemptPlan, tiles: u32) -> Result<Vec<TileEvents>, NoMemory>
    requires { length plan.now.lists ≡ tiles }
    ensures { IfOk result (λ v. v.items ≡ replicate tiles []) }
{
    let mut table = Vec::with_capacity(alloc, tiles as usize)?;
    for tile in 0..tiles {
        table.push(TileEvents::with_room(alloc, plan.count(tile))?)?;
    }
    Ok(table)
}

/// The events of each tile. Each is looked at once.
pub(crate) fn events_by_tile(
    alloc: Global,
    plan: &AttemptPlan,
    tiles: u32,
    records: &[Record],
) -> Result<Vec<TileEvents>, NoMemory>
    requires lists { length plan.now.lists ≡ tiles }
    requires tiles { All (λ (r : Record). r.tile < tiles) records.now }
    ensures { IfOk result (λ v. AreByTile tiles records.now v.items) }
{
    let mut table = no_events(alloc, plan, tiles)?;
    for k in 0..records.len() {
        let entry = records[k];
        let events = &mut table[entry.tile as usize];
        events.push(entry)?;
    }
    Ok(table)
}

/// How many abandoned attempts are of tiles below this one.
fn below_tile(abandoned: &[Abandoned], tile: u64) -> usize
    requires { AllPairs ComesBefore abandoned.now }
    ensures bound { result ≤ length abandoned.now }
    ensures before { AllWithin (λ (g : Abandoned). g.tile < tile) abandoned.now 0 result }
    ensures from { AllWithin (λ (g : Abandoned). tile ≤ g.tile) abandoned.now result (length abandoned.now) }
{
    abandoned.partition_point(|gone| u64::from(gone.tile) < tile)
}

/// The abandoned attempts of a tile, which stand beside one another.
pub(crate) fn abandoned_of<'a>(abandoned: &'a [Abandoned], tile: u32) -> &'a [Abandoned]
    requires { AllPairs ComesBefore abandoned.now }
    ensures { result.now ≡ abandoned_by tile abandoned.entry.now }
{
    let first = u64::from(tile);
    let start = below_tile(abandoned, first);
    let end = below_tile(abandoned, first + 1);
    &abandoned[start..end]
}
