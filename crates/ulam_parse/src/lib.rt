//! The grammar of element files: tokens as their one tree, or their first fault.
//!
//! Which tokens are which tree is a relation with a case for each form (`specs/Grammar.antt`). How
//! tokens are read is no part of it.
#![tactic(auto)]

mod deep;
mod expr;
mod fault;
mod for_parts;
mod halt;
mod head;
mod item;
mod judge;
mod law;
mod mark;
mod marks;
mod member;
mod nest;
mod nesting;
mod parser;
mod simple;
mod statement;
pub mod symbol;
mod tables;
mod take;
mod tape;
mod types;

pub use fault::ParseFault;
pub use law::one_tree;
pub use parser::parse;
