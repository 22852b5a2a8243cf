//! One call of the simulator, from its words to what it writes.
//!
//! `feast` documents the forms that the words of a call may have, and what each of them writes.
#![tactic(auto)]

mod acting;
mod auditing;
mod chains;
mod code_files;
mod element_files;
mod elements;
mod generated_elements;
mod generating;
mod grids;
mod halt;
mod in_memory;
mod journals;
mod law;
mod legs;
mod loading;
mod output;
mod packing;
mod replaying;
mod reply;
mod rewinding;
mod running;
mod settings;
mod stages;
mod status;
mod stepping;
mod top;
mod worlds;

pub use in_memory::feast_in_memory;
pub use law::wander_and_stone;
pub use loading::{CODE_LIMIT, ELEMENT_LIMIT, JOURNAL_LIMIT, WORLD_LIMIT};
pub use status::Status;
pub use top::feast;
