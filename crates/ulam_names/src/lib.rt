//! Names of element files: what each name in a tree means, or the first name that breaks a rule.
#![tactic(auto)]

mod basic;
mod class;
mod class_scope;
mod cycle;
mod expr;
mod fault;
mod half;
mod law;
mod leaf;
mod limits;
mod member;
mod names;
mod parts;
mod path;
mod program;
mod scope;
mod statement;
mod table;
mod types;
mod ways;
mod whole;

pub use fault::NameFault;
pub use law::one_resolution;
pub use limits::{MOST_CLASSES, MOST_LOCALS, MOST_MEMBERS};
pub use program::resolve;
