//! The outside of the simulator, and what all its crates share: running out of memory, names,
//! places in files, refusals and their lines, shelves to load from, sinks to write to, and gates that
//! workers pass.
#![tactic(auto)]

mod file_shelf;
mod gate;
mod limits;
mod mem_shelf;
mod mem_sink;
mod memory;
mod name;
mod noted;
mod place;
mod refusal_line;
mod shelf;
mod sink;
mod source;
mod std_sink;
mod stop;
pub mod text;
mod type_name;

pub use file_shelf::{FileShelf, read_whole};
pub use gate::{ClockGate, Gate, OpenGate, Rest};
pub use limits::{
    LAST_STAMP, MOST_ATTEMPTS, MOST_CALLS, MOST_PARAMS, MOST_SITES, MOST_TILES, MOST_TURNS,
};
pub use mem_shelf::MemShelf;
pub use mem_sink::MemSink;
pub use memory::NoMemory;
pub use name::Name;
pub use place::{Place, Refusal};
pub use refusal_line::print_refusal;
pub use shelf::{LoadFault, Shelf};
pub use sink::{Sink, SinkFailed};
pub use source::Source;
pub use std_sink::{StdSink, write_whole};
pub use stop::Stop;
pub use type_name::{LONGEST_NAME, is_type_name, is_word_byte};
