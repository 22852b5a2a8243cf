//! One tile: its phases, its log and its copy of the sites that it holds.
#![tactic(auto)]

mod attempt;
mod clocks;
mod law;
mod phase;
mod state;
mod tile;

pub use law::on_one_board;
pub use phase::Phase;
pub use tile::Tile;
