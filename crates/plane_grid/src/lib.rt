//! Grids of a plane of tiles: the grid of a map, which has the plane's size and its live sites.
//!
//! A site is live if its tile is on. What runs on a plane begins with such a grid, and what judges a
//! run is given one.
#![tactic(auto)]

mod blank;

pub use blank::blank_grid;
