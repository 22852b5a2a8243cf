//! Texts that are made of lines, and lines that are made of fields: how to take them apart, which
//! numbers and digits the fields are, and how to print them.
//!
//! Fields are separated by one space. A number is a canonical decimal, 0 or a first digit that is
//! not 0, of at most 20 digits. A seed has 16 and a state 18 hexadecimal digits in lower case.
#![tactic(auto)]

mod cut;
mod field;
mod hexadecimal;
mod numbers;
mod take;

pub use cut::{first_field, is_skipped, next_ended, next_line};
pub use field::{Field, push_line};
pub use hexadecimal::{seed_digits, state_digits};
pub use numbers::{number, seed, state};
pub use take::{one_field, one_number, one_seed, take_number, two_numbers};
