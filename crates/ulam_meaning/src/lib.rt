//! What element programs mean.
//!
//! The meaning is defined in `specs/`, form by form, as total definitions over the plain trees
//! whose types are known: `after` gives the window that an event leaves. It runs no program;
//! [`laws`] says what holds of every event, and [`laid_out`] what holds if a program has a layout.
#![tactic(auto)]

mod law;

pub use law::{laid_out, laws};
