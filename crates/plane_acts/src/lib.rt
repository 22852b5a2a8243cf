//! Acts: what changes a plane between two legs of a chain of runs.
//!
//! An act clears, fills, erases or flips the sites of an area of the plane. A schedule says which
//! acts are done before which leg. Those that go by chance take their words from one stream, whose
//! seed the caller gives for each leg.
#![tactic(auto)]

mod act;
mod chance;
mod schedule;
mod words;

pub use act::Act;
pub use chance::{BILLION, Chance};
pub use schedule::{Every, Once, Schedule};
