//! What a call writes.

use crate::elements::Elements;
use crate::worlds::{Ready, ReadyChain};
use cell_grid::Grid;
use event_journal::Journal;

/// A run that is over: the grid and the journal that it left, and the world that was run with its
/// elements.
pub struct FinishedRun {
    pub grid: Grid,
    pub journal: Journal,
    pub ready: Ready,
}

// Written by hand, not derived: so a caller drops it by one call.
impl Drop for FinishedRun {
    fn drop(self) {
        let FinishedRun {
            grid,
            journal,
            ready,
        } = self;
    }
}

/// A grid that events left, and the elements of its atoms.
pub struct ShownGrid {
    pub grid: Grid,
    pub elements: Elements,
}

// Written by hand, not derived: so a caller drops it by one call.
impl Drop for ShownGrid {
    fn drop(self) {
        let ShownGrid { grid, elements } = self;
    }
}

/// What a call writes.
pub enum Output {
    /// A text, put in one piece.
    Text(Vec<u8>),
    /// The atoms of a grid, put in pieces.
    Grid(ShownGrid),
    /// The report of a run, put in pieces.
    Report(FinishedRun),
}

// Written by hand, not derived: so a caller drops it by one call.
impl Drop for Output {
    fn drop(self) {
        match self {
            Output::Text(text) => {}
            Output::Grid(shown) => {}
            Output::Report(finished) => {}
        }
    }
}

/// A chain whose legs are to be run, or stepped.
pub struct LegsToRun {
    pub ready: ReadyChain,
    /// Whether each leg is stepped on one thread.
    pub stepped: bool,
}

// Written by hand, not derived: so a caller drops it by one call.
impl Drop for LegsToRun {
    fn drop(self) {
        let LegsToRun { ready, stepped } = self;
    }
}

/// What is left to do once the stages of a form are passed.
pub enum Job {
    /// Something is written.
    Write(Output),
    /// The legs of a chain are run, and the report of each is put before the next one begins.
    Legs(LegsToRun),
}

// Written by hand, not derived: so a caller drops it by one call.
impl Drop for Job {
    fn drop(self) {
        match self {
            Job::Write(output) => {}
            Job::Legs(legs) => {}
        }
    }
}
