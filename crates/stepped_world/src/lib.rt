//! The stepped run: all tiles of a plane on one thread, one step at a time in a written order.
#![tactic(auto)]

mod law;
mod run;
mod settled;

pub use law::{comes_to_its_end, small_runs};
pub use run::run_steps;
pub use settled::run_settled;
