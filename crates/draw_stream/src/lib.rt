//! Where attempts and random words come from.
//!
//! An attempt is a centre and a seed for the event there. A plan gives each tile its attempts,
//! from a script or from the words of a generator. The event draws its own words from its seed.
#![tactic(auto)]

mod attempt;
mod attempts;
mod event_draws;
mod plan;
mod remainders;
mod tile_stream;

pub use attempt::Attempt;
pub use attempts::Attempts;
pub use event_draws::EventDraws;
pub use plan::{AttemptPlan, Script};
pub use remainders::remainder;
pub use tile_stream::TileStream;
