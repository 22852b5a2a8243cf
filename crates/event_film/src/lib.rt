//! Events that are made on a grid and taken back.
//!
//! A film keeps the window before each event that it makes, and can undo the events, the last of
//! them first. So the grid that the first events of a journal leave is had from the start by making
//! all of them and undoing the others.
#![tactic(auto)]

mod film;
mod frame;
mod kept;
mod law;
mod marks;
mod rewinding;
mod words;

pub use film::Film;
pub use kept::Kept;
pub use law::films;
pub use rewinding::rewind;
