//! The world that a number gives, and the summary of its run. Its elements are `Wander`, of the
//! type number 1, and `Stone`, of 2; only these numbers matter here.
#![tactic(auto)]

mod counts;
mod world;

pub use counts::summary;
pub use world::world_of_number;
