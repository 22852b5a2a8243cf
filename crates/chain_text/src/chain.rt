//! A chain.

use plane_acts::Schedule;
use tile_map::Map;
use world_text::Placed;

/// Which reports the legs have.
#[derive(Clone, Copy)]
pub enum Journal {
    /// Each leg a whole one.
    Whole,
    /// Each leg a short one, without what the leg's world says of its events.
    Short,
    /// Atoms and counts alone, after each leg whose number is a multiple of `print`, and after the
    /// last.
    Counts {
        /// From 1 to 1,000,000.
        print: u32,
    },
}

/// A chain: what its legs have in common, how many there are, the acts between them, and the atoms
/// before the first.
pub struct Chain {
    /// The tiles of the plane.
    pub map: Map,
    /// The seed from which the seeds of the legs are made.
    pub seed: u64,
    /// How many attempts each tile that is on draws in a leg, if no act says otherwise.
    pub attempts: u64,
    /// How many legs there are, from 1 to 1,000,000.
    pub legs: u32,
    /// The number of the first leg, from 1. That of the last is at most 4,294,967,295.
    pub first: u32,
    /// Which reports the legs have.
    pub journal: Journal,
    /// The acts.
    pub schedule: Schedule,
    /// The atoms that are not empty, in the order in which they were placed.
    pub atoms: Vec<Placed>,
}

// Written by hand, not derived: so a caller drops it by one call.
impl Drop for Chain {
    fn drop(self) {
        let Chain {
            map,
            seed,
            attempts,
            legs,
            first,
            journal,
            schedule,
            atoms,
        } = self;
    }
}
