//! The compiler, from typed trees to stack code.
//!
//! A function's tree becomes a piece: code before places and numbers are given out. The functions
//! of an element are found by their calls, and laid out one after another.
#![tactic(auto)]

mod access;
mod calls;
mod classes;
mod depth;
mod element;
mod elements;
mod emit;
mod expr;
mod fault;
mod gather;
mod kinds;
mod law;
mod locals;
mod lookup;
pub mod make;
mod parts;
mod path;
mod piece;
mod size;
mod source;
mod statement;
mod trees;

pub use element::build;
pub use elements::compile;
pub use fault::GenFault;
pub use law::{
    by_first_call, codes_in_order, compiled, depths, one_compiling, right, same_meaning,
};
pub use piece::{Key, Piece};
pub use source::{Head, Source};
