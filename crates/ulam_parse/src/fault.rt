//! Why tokens have no tree.
use feast_base::Place;
use thiserror::Error;

/// Why tokens have no tree, or nest too deeply.
#[derive(Clone, Copy, Debug, Error)]
pub enum ParseFault {
    /// The place of the first token that no file has after the tokens before it.
    #[error("syntax")]
    Syntax(Place),
    /// The place of the first token at which the nesting is deeper than 64.
    #[error("nested too deep")]
    TooDeep(Place),
    /// Memory ran out.
    #[error("out of memory")]
    NoMemory,
}
