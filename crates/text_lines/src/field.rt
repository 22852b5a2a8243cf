//! Fields, and lines that are printed from them.
ghost use Rattle.std.specs.Prelude.{◌≡◌, ◌++◌, codes, map};
ghost use Rattle.feast_base.specs.Appending.{Appends};
ghost use Rattle.text_lines.specs.Lines.{ended_line, line_text, more_text};
ghost use Rattle.text_lines.specs.Values.{field_text};

use crate::hexadecimal::{seed_digits, state_digits};
use feast_base::NoMemory;
use feast_base::text::{push, push_number};

/// A field of a line.
#[derive(Clone, Copy)]
pub enum Field<'a> {
    /// A word or a name.
    Word(&'a [u8]),
    /// A number in decimal.
    Number(u64),
    /// A number of 16 hexadecimal digits.
    Seed(u64),
    /// A number of 18 hexadecimal digits, the low ones if it has more.
    State(u128),
}

/// Appends a field.
fn push_field(out: &mut Vec<u8>, field: &Field<'_>) -> Result<(), NoMemory>
    ensures { Appends out.old.items out.new.items result (field_text field.now) }
{
    match field {
        Field::Word(word) => push(out, word),
        Field::Number(n) => push_number(out, *n),
        Field::Seed(n) => push(out, seed_digits(*n).as_slice()),
        Field::State(n) => push(out, state_digits(*n).as_slice()),
    }
}

/// Appends a space and a field.
fn push_next(out: &mut Vec<u8>, field: &Field<'_>) -> Result<(), NoMemory>
    ensures { Appends out.old.items out.new.items result (codes " " ++ field_text field.now) }
{
    push(out, b" ")?;
    push_field(out, field)
}

/// Appends some fields, each with a space before it.
fn push_more(out: &mut Vec<u8>, fields: &[Field<'_>]) -> Result<(), NoMemory>
    ensures { Appends out.old.items out.new.items result (more_text (map field_text fields.now)) }
{
    for field in fields {
        push_next(out, field)?;
    }
    Ok(())
}

/// Appends fields, separated by one space.
fn push_fields(out: &mut Vec<u8>, fields: &[Field<'_>]) -> Result<(), NoMemory>
    ensures { Appends out.old.items out.new.items result (line_text (map field_text fields.now)) }
{
    match fields {
        [first, more @ ..] => {
            push_field(out, first)?;
            push_more(out, more)
        }
        [] => Ok(()),
    }
}

/// Appends a line of fields with its LF. `NoMemory` if `out` can't grow.
pub fn push_line(out: &mut Vec<u8>, fields: &[Field<'_>]) -> Result<(), NoMemory>
    ensures { Appends out.old.items out.new.items result (ended_line (map field_text fields.now)) }
{
    push_fields(out, fields)?;
    push(out, b"\n")
}
