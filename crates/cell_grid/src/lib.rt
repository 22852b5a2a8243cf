//! A flat grid of atoms, its windows and events, and the replay of records.
//!
//! A grid is a plane of sites in row order, some of which are live. An event has a centre and a
//! seed: the behaviour sees the window there, and each live site of the window then gets the atom
//! that it left. A window shows a site that is not live, or not in the plane, as empty and not live,
//! and a write to such a site does nothing.
#![tactic(auto)]

mod behave;
mod grid;
mod inner;
mod marks;
mod record;

pub use behave::Behave;
pub use grid::Grid;
pub use inner::put_inner;
pub use marks::Rectangle;
pub use record::Record;
