//! Judging reports.
//!
//! `audit` decides by calculation whether the events and the abandoned attempts of a report, of
//! whatever origin, are accounted for, stamped and excused, and gives the grid of their replay.
#![tactic(auto)]

mod accounted;
mod auditing;
mod by_tile;
mod entries;
mod excused;
mod mark;
mod marks;
mod stamped;
mod verdict;

pub use auditing::audit;
pub use verdict::Verdict;
