//! What the tiles of a run did: the events that took place and the attempts that were given up,
//! kept as one log for each tile, and the walk that gives the events in the order of the journal.
//!
//! The journal's order is by stamp, and at equal stamps by tile.
#![tactic(auto)]

mod abandoned;
mod journal;
mod log;
mod merge;
mod split;
mod tournament;
mod walk;

pub use abandoned::Abandoned;
pub use journal::Journal;
pub use log::TileLog;
pub use walk::Walk;
