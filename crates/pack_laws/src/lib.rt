//! What holds of the code file that `pack` writes.
//!
//! It has no code: [`packed_laws`] says that a code file can say the compiled elements of accepted
//! files, that the file which is written from them is read as them, and that they act as the
//! elements mean; [`packed_calls`] says that a call with the code file that `pack` wrote for some
//! element files does what the call with these files does.
#![tactic(auto)]

mod law;

pub use law::{packed_calls, packed_laws};
