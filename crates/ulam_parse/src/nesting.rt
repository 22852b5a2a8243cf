//! The count of nesting.
ghost use Rattle.std.specs.Prelude.{◌≡◌, reverse};
ghost use Rattle.ulam_parse.specs.Nesting.{weighs};

use crate::symbol::Symbol;

/// The count in the innermost bracket, the counts around it with the outermost first, their sum
/// with 1 for each, and the last symbol.
#[derive(Drop)]
pub struct Nest {
    pub inner: u32,
    pub outer: Vec<u32>,
    pub around: u32,
    pub last: Symbol,
    ghost whole: { around ≡ weighs (reverse outer.items) },
}
