//! Sets of elements: files from their bytes to the code of their elements, stage by stage, and
//! what acts as the elements mean it.
//!
//! Each file is lexed and parsed before the next one is; then come, for all files together, bases,
//! names, the layout of data members, types, and code. The first stage that refuses ends the building.
#![tactic(auto)]

mod actor;
mod build;
mod crossing;
mod elements;
mod fault;
mod flat;
mod law;
mod lengths;
mod names;
mod numbers;
mod print;
mod print_code;
mod set;
mod trees;

pub use actor::Actor;
pub use fault::BuildFault;
pub use law::{one_building, refusals_stand_in_files};
pub use set::ElementSet;
