//! Code files: compiled elements as bytes. They are written, read, and run as a behaviour.
//!
//! There is only one way to spell a code file: numbers have fixed widths and are big-endian, each
//! list comes after its length, and nothing follows the last element.
#![tactic(auto)]

mod actor;
mod args;
mod crossing;
mod elements;
mod fault;
mod field;
mod functions;
mod halt;
mod instrs;
mod law;
mod magic;
mod names;
mod numbers;
mod reading;
mod set;
mod writing;
mod written_instrs;
mod written_numbers;

pub use actor::CodeActor;
pub use elements::MOST_ELEMENTS;
pub use fault::CodeFault;
pub use law::file_laws;
pub use reading::read;
pub use set::CodeSet;
pub use writing::write;
