//! The rules of types: which typed tree an expression, a statement and a program have.
//!
//! They are definitions, in `specs/`: once by cases and in no order, and once as a walk that finds the
//! tree or the first fault. The checker of types gives what they say, and the compiler's theorem
//! begins from it, so that neither needs the other to be proved.
#![tactic(auto)]

mod scope;

pub use scope::{FieldSig, NumClass, Want};
