//! Types of element files: what each expression is, or the first place that breaks a rule.
#![tactic(auto)]

mod copy;
mod ends;
mod expr;
mod fault;
mod form;
mod function;
mod law;
mod locals;
mod lookup;
mod parts;
mod program;
mod rows;
mod scope;
mod sigs;
mod statement;
mod suits;

pub use fault::TypeFault;
pub use law::one_typing;
pub use program::check;
