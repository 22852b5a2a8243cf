//! The text of a chain: a run of many legs, each as long as the run of a world, with acts between
//! them that change the plane.
//!
//! A text is read in two steps, as that of a world is. `read` takes it apart and answers what it
//! says, or the first faulty line; `name` then gives the atoms the types of their names. `print`
//! writes a chain as a text that reads as this chain again. The lines about the plane, the attempts
//! and the atoms are those of a world, read and printed as there.
#![tactic(auto)]

mod chain;
mod chance;
mod draft;
mod law;
mod legs;
mod limits;
mod line;
mod named;
mod printed;
mod ranges;
mod raw_act;
mod raw_chain;
mod reader;
mod stage;
mod step;
mod take;

pub use chain::{Chain, Journal};
pub use law::reads_again;
pub use limits::{LAST_LEG, MOST_LEGS};
pub use named::name;
pub use printed::print;
pub use raw_chain::RawChain;
pub use reader::{is_chain, read};
