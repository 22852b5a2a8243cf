//! The text of a world: its plane of tiles, the attempts of the tiles, its atoms, and the order of
//! a stepped run.
//!
//! A text is read in two steps. `read` takes it apart and answers what it says, or the first faulty
//! line; `name` then gives the atoms the types of their names. `print` writes a world as a text
//! that reads as this world again.
//!
//! A text that has such lines among its own, as that of a chain, takes them apart with `line_of` and
//! `name_state`, gathers what they say in a `PartialWorld`, and prints them with `push_off` and
//! `push_atoms`.
#![tactic(auto)]

mod atoms;
mod draft;
mod fault;
mod kind;
mod law;
mod line;
mod named;
mod partial_world;
mod printed;
mod ranges;
mod raw_world;
mod reader;
mod step;
mod take;
mod world;

pub use fault::WorldFault;
pub use kind::{Kind, misplaced_fault};
pub use law::{laws, reads_again};
pub use line::Line;
pub use named::{kinds_of, name, type_of};
pub use partial_world::PartialWorld;
pub use printed::{print, push_atoms, push_off};
pub use raw_world::RawWorld;
pub use reader::read;
pub use take::{line_of, name_state};
pub use world::{Order, Placed, World};
