//! What holds at the place of a fault, said for each code in the words of its rule.
//!
//! It has no code: [`name_faults`] says it of the faults of names, [`type_faults`] of those of types
//! and [`base_faults`] of those of bases. So the codes can be believed without following the walk
//! that finds the first fault.
#![tactic(auto)]

mod bases;
mod names;
mod types;

pub use bases::base_faults;
pub use names::name_faults;
pub use types::type_faults;
