//! The parts of a `for` that are in its brackets.

use ulam_tree::{Expr, Statement};

/// The parts of a `for` that are in its brackets.
#[derive(Drop)]
pub struct ForParts {
    pub first: Option<Box<Statement>>,
    pub cond: Option<Expr>,
    pub step: Option<Box<Statement>>,
}
