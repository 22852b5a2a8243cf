//! From a world to the outcome of its run: the flat grid that it starts with, its tiles and its
//! order; the run stepped, with a worker for each tile, or of one tile alone; and the grid that
//! the replay of records leaves.
#![tactic(auto)]

mod law;
mod one_tile;
mod order;
mod plans;
mod replaying;
mod starting;
mod stepping;
mod threading;
mod tiles;
mod turns;

pub use law::{each_attempt_is_an_event, laws, listed_order};
pub use one_tile::journal;
pub use order::{drawn_turns, order_of};
pub use replaying::replay_world;
pub use starting::start;
pub use stepping::{stepped, stepped_from};
pub use threading::{threaded, threaded_from};
pub use tiles::fresh_tiles;
pub use turns::Turns;
