//! What the words of a call ask for: one of eleven forms, or none.
#![tactic(auto)]

mod form;

pub use form::{Form, MOST_FILES, read_form};
