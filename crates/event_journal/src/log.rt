//! What one tile did.
ghost use Rattle.std.specs.Prelude.{◌≡◌};
ghost use Rattle.event_journal.specs.Logs.{IsLog, log_of};

use crate::abandoned::Abandoned;
use cell_grid::Record;
use std::marker::Model;

/// The events and the abandoned attempts of one tile, each in the order in which they were made.
#[derive(Drop)]
pub struct TileLog {
    tile: u32,
    records: Vec<Record>,
    abandoned: Vec<Abandoned>,
}

impl Model for TileLog {
    ghost use Rattle.event_journal.specs.Logs.{LogValue, IsLog, log_of};

    ghost Value = { LogValue };

    ghost view = { λ l. log_of l.tile l.records.items l.abandoned.items };

    ghost invariant = { λ l. IsLog (log_of l.tile l.records.items l.abandoned.items) };
}

impl TileLog {
    /// The log of a tile. All entries are of that tile, the numbers of their attempts rise in both
    /// lists, and the stamps of the records rise.
    pub fn new(tile: u32, records: Vec<Record>, abandoned: Vec<Abandoned>) -> TileLog
        requires { IsLog (log_of tile records.items abandoned.items) }
        ensures { result ≡ log_of tile records.items abandoned.items }
    {
        TileLog {
            tile,
            records,
            abandoned,
        }
    }

    /// The events, in the order in which they took place.
    pub fn records(&self) -> &[Record]
        ensures { result.now ≡ self.now.records }
    {
        self.records.as_slice()
    }

    /// The attempts that were given up, in their order.
    pub fn abandoned(&self) -> &[Abandoned]
        ensures { result.now ≡ self.now.abandoned }
    {
        self.abandoned.as_slice()
    }

    /// What holds of every log, since `new` requires it. The call does nothing: its contract is the
    /// law.
    pub fn laws(&self)
        ensures { IsLog self.now }
    {
        // The proof takes what holds of the log from this reading of it.
        let _ = &self.tile;
    }
}
