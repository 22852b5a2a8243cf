//! The tokens of a text.
#![tactic(auto)]

mod bytes;
mod law;
mod lexer;
mod numeral;
mod scan;
mod token;

pub use bytes::is_keyword;
pub use law::one_reading;
pub use lexer::{MOST_TOKENS, lex};
pub use numeral::{Numeral, numeral_of};
pub use token::{LexFault, Token, TokenKind};
