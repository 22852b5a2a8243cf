//! Stack code: the instructions of an element's functions, the test of whether code is valid, and
//! its text form.
#![tactic(auto)]

mod code;
mod effects;
mod exits;
mod fits;
mod instr;
mod kind_lists;
mod limits;
mod operators;
mod pass;
mod shapes;
mod text;
mod verifier;

pub use code::{Code, RawCode, RawFunction};
pub use instr::{Answer, Instr, Operand};
pub use limits::{MOST_INSTRS, MOST_OPERANDS, MOST_SLOTS};
pub use operators::{BinaryOp, UnaryOp};
pub use text::print;
pub use verifier::verify;
