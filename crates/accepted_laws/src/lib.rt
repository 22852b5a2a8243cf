//! What holds of files that no stage refuses.
//!
//! It has no code: [`base_laws`] says that a data member of a base has the same type, bits and first
//! bit in each heir, and that a virtual name leads to the nearest declaration in each body;
//! [`each_event_has_a_meaning`] says what its name says.
#![tactic(auto)]

mod law;

pub use law::{base_laws, each_event_has_a_meaning};
