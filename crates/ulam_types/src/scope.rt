//! What is known where an expression or a statement is.

use type_rules::{FieldSig, Want};
use ulam_tree::resolved::Ty;

/// A function, without its body.
#[derive(Drop)]
pub struct FunctionSig {
    pub result: Ty,
    pub wants: Vec<Want>,
}

/// A class, without the bodies of its functions.
#[derive(Drop)]
pub struct ClassSig {
    pub quark: bool,
    pub fields: Vec<FieldSig>,
    pub functions: Vec<FunctionSig>,
}

/// What is known where an expression or a statement is.
#[derive(Clone, Copy)]
pub struct Scope<'a> {
    /// All classes.
    pub classes: &'a [ClassSig],
    /// The class that has the function.
    pub class: u32,
    /// The types of the function's slots.
    pub slots: &'a [Ty],
    /// The function's result.
    pub result: Ty,
    /// Whether a loop is around.
    pub looped: bool,
}
