//! Types by their names, as the parser gives them.

use crate::raw::Word;

/// A type by its name.
pub struct TypeRef {
    /// The name.
    pub word: Word,
    /// The number of bits in brackets after it.
    pub width: Option<Width>,
}

// By hand, so that callers drop by a call.
impl Drop for TypeRef {
    fn drop(self) {
        let TypeRef { word, width } = self;
    }
}

/// A number of bits, or the length of an array.
pub enum Width {
    /// As a number.
    Number { value: u32 },
    /// As a constant.
    Named { word: Word },
}

// By hand, so that callers drop by a call.
impl Drop for Width {
    fn drop(self) {
        match self {
            Width::Number { value } => {}
            Width::Named { word } => {}
        }
    }
}
