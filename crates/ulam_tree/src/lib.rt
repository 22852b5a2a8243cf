//! Trees of element files, with the places in the text that later stages refuse.
//!
//! The trees at the root are as the parser gives them: names are bytes, and nothing is looked up.
//! In those of `resolved` each name is what it means, and in those of `typed` each expression has its
//! type. Contracts see a tree as a plain one, with lists in place of vectors and without boxes. The
//! functions of `raw_build`, `resolved_build` and `typed_build` make trees from their parts.
//!
//! Large types have drops written by hand. Code that drops such a tree calls one; a derived drop
//! would be repeated in line at each such place, which makes proofs several times as long.
#![tactic(auto)]

mod op;
mod raw;
pub mod raw_build;
pub mod resolved;
pub mod resolved_build;
mod type_ref;
pub mod typed;
pub mod typed_build;

pub use op::{PairOp, PrefixOp};
pub use raw::{
    Call, Class, Cond, Const, Expr, File, Item, Left, Member, Param, Path, Statement, Word,
};
pub use type_ref::{TypeRef, Width};
