//! The machine that runs an event's code on a window, with its steps counted.
#![tactic(auto)]

mod activation;
mod dispatch;
mod ending;
mod fields;
mod frame;
mod machine;
mod numbers;
mod operands;
mod plain;
mod steps;

pub use ending::Ended;
pub use machine::Machine;
pub use steps::{CountLedger, Ledger, NoLedger, Steps};
