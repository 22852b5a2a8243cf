//! What holds of programs whose names have been looked up and whose types are known.
//!
//! It has no code: [`names_hold`] says that such a program, if no class is too wide, is what the
//! compiler needs. The proof goes form by form through the rules of names and carries them over to
//! typed trees.
#![tactic(auto)]

mod law;

pub use law::names_hold;
