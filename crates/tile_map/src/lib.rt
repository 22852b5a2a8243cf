//! The plane cut into tiles: which tile owns and which tiles hold a site, the edges between
//! neighbouring tiles with the sites that they share, and the edges that an event needs.
//!
//! The plane is a rectangle of 1 to 8 by 1 to 8 tiles, and each tile a rectangle of 8 to 64 by
//! 8 to 64 sites. x grows east and y grows south, from (0, 0). Tiles are numbered row by row. Some
//! tiles may be off: they hold no site, and no edge leads to them.
#![tactic(auto)]

mod crossing;
mod edges;
mod limits;
mod map;
mod needed;
mod needs;
mod plane;
mod shared;
mod span;

pub use limits::{
    LEAST_SIDE, MOST_ACROSS, MOST_EDGES, MOST_NEEDS, MOST_REACH, MOST_SHARED, MOST_SIDE,
};
pub use map::Map;
pub use needs::Needs;
pub use plane::Plane;
pub use span::{Area, Span};
