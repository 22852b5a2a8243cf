//! The line that reports a refusal.
ghost use Rattle.std.specs.Prelude.{◌≡◌, ℕ, ◌+◌, ◌++◌, codes, decimal};
ghost use Rattle.feast_base.specs.Appending.{Appends};
ghost use Rattle.feast_base.specs.Refusals.{IsCode, longer_line, place_text, placed_line, plain_text, refusal_line, refusal_text, unreadable_line};

use crate::text::{push, push_number};
use crate::{NoMemory, Refusal};

/// The forms that the words of a call may have.
const USAGE: &[u8] =
    b"E00 usage: feast check|code|pack FILE.. | step|run WORLD FILE.. | steppack|runpack WORLD CODE | replay WORLD JOURNAL FILE.. | audit WORLD REPORT FILE.. | rewind WORLD REPORT K FILE.. | gen N\n";

/// Appends the line that reports a refusal of the file with this name.
///
/// Code 0 means that the words have none of the forms, and shows no name; 1 that the file is
/// unreadable, and 2 that it is longer than `value` bytes, both without a place. Each other code is
/// shown as `NAME:LINE:COLUMN: ECODE TEXT`. The line ends with LF. `NoMemory` if `out` can't grow.
#[tactic(auto, unfolding(crate::specs::Refusals::refusal_line))]
pub fn print_refusal(name: &str, refusal: &Refusal, out: &mut Vec<u8>) -> Result<(), NoMemory>
    requires { IsCode refusal.now.code }
    ensures { Appends out.old.items out.new.items result (refusal_line name.now refusal.now) }
{
    match refusal.code {
        0 => push(out, USAGE),
        1 => push_unreadable(out, name.as_bytes()),
        2 => push_longer(out, name.as_bytes(), refusal.value),
        _ => push_placed(out, name.as_bytes(), refusal),
    }
}

/// Appends the line of a file that can't be read.
fn push_unreadable(out: &mut Vec<u8>, name: &[u8]) -> Result<(), NoMemory>
    ensures { Appends out.old.items out.new.items result (unreadable_line name.now) }
{
    push(out, name)?;
    push(out, b": E01 unreadable\n")
}

/// Appends the line of a file that is longer than its limit.
fn push_longer(out: &mut Vec<u8>, name: &[u8], limit: u64) -> Result<(), NoMemory>
    ensures { Appends out.old.items out.new.items result (longer_line name.now limit) }
{
    push(out, name)?;
    push(out, b": E02 longer than ")?;
    push_number(out, limit)?;
    push(out, b" bytes\n")
}

/// Appends the line of a cause that has a place.
fn push_placed(out: &mut Vec<u8>, name: &[u8], refusal: &Refusal) -> Result<(), NoMemory>
    ensures { Appends out.old.items out.new.items result (placed_line name.now refusal.now) }
{
    push_place(out, name, refusal.place.line, refusal.place.column)?;
    push_code(out, refusal.code)?;
    push_text(out, refusal.code, refusal.value)?;
    push(out, b"\n")
}

/// Appends bytes and a colon.
fn push_field(out: &mut Vec<u8>, bytes: &[u8]) -> Result<(), NoMemory>
    ensures { Appends out.old.items out.new.items result (bytes.now ++ codes ":") }
{
    push(out, bytes)?;
    push(out, b":")
}

/// Appends a number and a colon.
fn push_number_field(out: &mut Vec<u8>, n: u32) -> Result<(), NoMemory>
    ensures { Appends out.old.items out.new.items result (decimal n ++ codes ":") }
{
    push_number(out, n as u64)?;
    push(out, b":")
}

/// Appends a place.
fn push_place(out: &mut Vec<u8>, name: &[u8], line: u32, column: u32) -> Result<(), NoMemory>
    ensures { Appends out.old.items out.new.items result (place_text name.now line column) }
{
    push_field(out, name)?;
    push_number_field(out, line)?;
    push_number(out, column as u64)
}

/// Appends what is between a place and a text.
fn push_code(out: &mut Vec<u8>, code: u8) -> Result<(), NoMemory>
    ensures { Appends out.old.items out.new.items result (codes ": E" ++ (decimal code ++ codes " ")) }
{
    push(out, b": E")?;
    push_number(out, code as u64)?;
    push(out, b" ")
}

/// Appends the text of a code, with its number if it shows one.
fn push_text(out: &mut Vec<u8>, code: u8, value: u64) -> Result<(), NoMemory>
    ensures { Appends out.old.items out.new.items result (refusal_text code value) }
{
    match code {
        40 => push_counted(out, b"quark takes ", value, b" bits, at most 32"),
        41 => push_counted(out, b"element takes ", value, b" bits, at most 71"),
        81 => push_last(out, b"out of order after line ", value),
        84 => push_counted(out, b"journal has ", value, b" records"),
        _ => push(out, plain_text(code)),
    }
}

/// Appends a number between two texts.
fn push_counted(out: &mut Vec<u8>, before: &[u8], value: u64, after: &[u8]) -> Result<(), NoMemory>
    ensures { Appends out.old.items out.new.items result (before.now ++ (decimal value ++ after.now)) }
{
    push(out, before)?;
    push_number(out, value)?;
    push(out, after)
}

/// Appends a number after a text.
fn push_last(out: &mut Vec<u8>, before: &[u8], value: u64) -> Result<(), NoMemory>
    ensures { Appends out.old.items out.new.items result (before.now ++ decimal value) }
{
    push(out, before)?;
    push_number(out, value)
}

/// The text of a code that shows no number.
#[tactic(auto, unfolding(crate::specs::Refusals::plain_text))]
fn plain_text(code: u8) -> &'static [u8]
    ensures { result.now ≡ plain_text code }
{
    match code {
        10 => b"bad byte",
        11 => b"comment is not closed",
        12 => b"number too large",
        13 => b"too many tokens",
        20 => b"syntax",
        21 => b"nested too deep",
        30 => b"name declared twice",
        31 => b"unknown name",
        32 => b"quark contains itself",
        33 => b"no behave",
        34 => b"bad constant",
        35 => b"too many",
        36 => b"bad width",
        37 => b"base is not a quark",
        38 => b"class is its own base",
        39 => b"override does not match",
        50 => b"wrong type",
        51 => b"signed with unsigned",
        52 => b"not assignable",
        53 => b"wrong number of arguments",
        54 => b"not an element",
        55 => b"not in a loop",
        56 => b"missing return",
        60 => b"code is longer than 65536 instructions",
        61 => b"not a code file",
        62 => b"bad code file",
        63 => b"code is not valid",
        64 => b"name used twice",
        70 => b"bad header",
        71 | 80 => b"bad line",
        72 => b"number out of range",
        73 => b"unknown element",
        74 => b"site is taken",
        75 => b"too many attempts",
        76 => b"missing line",
        82 => b"not a site of the tile",
        83 => b"not an attempt of the tile",
        _ => b"",
    }
}
