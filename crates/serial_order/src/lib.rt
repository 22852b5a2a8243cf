//! One serial order of all events: what holds of tiles that are over, however their steps were
//! interleaved.
#![tactic(auto)]

mod law;
mod newest;
mod outcome;
mod unshared;
mod words;

pub use law::{
    finds_what_stands, news_at_any_moment, one_order, plain_moment, plain_run, small_run,
};
pub use outcome::{Outcome, settle};
pub use words::{ClosedEdges, EdgeWords};
