//! Reading names.
ghost use Rattle.std.specs.Prelude.{◌≡◌, ◌+◌, ◌<◌, length, slice_index_or, take};
ghost use Rattle.code_file.specs.Reading.{Gives, letters_at, name_at};
ghost use Rattle.code_file.specs.Words.{follows, may_end, stands, starts};

use crate::halt::Halt;
use crate::numbers::number;
use feast_base::{LONGEST_NAME, is_word_byte};
use ulam_lex::is_keyword;

/// The form of a name.
#[derive(Clone, Copy)]
pub enum NameForm {
    /// The name of an element: A to Z, then letters, digits and `_`.
    OfElement,
    /// The name of a function: a to z or `_`, then letters, digits and `_`, but not a keyword.
    OfFunction,
}

/// Whether a name may begin with a byte.
fn starts(form: NameForm, byte: u8) -> bool
    ensures { result ≡ starts form byte }
{
    match form {
        NameForm::OfElement => byte.is_ascii_uppercase(),
        NameForm::OfFunction => byte.is_ascii_lowercase() || byte == b'_',
    }
}

/// Whether a byte may follow those of a name so far.
fn follows(form: NameForm, done: &[u8], byte: u8) -> bool
    ensures { result ≡ follows form done.now byte }
{
    match done {
        [] => starts(form, byte),
        [_, ..] => is_word_byte(byte),
    }
}

/// Whether a name may end here.
fn may_end(form: NameForm, name: &[u8]) -> bool
    ensures { result ≡ may_end form name.now }
{
    match form {
        NameForm::OfElement => true,
        NameForm::OfFunction => !is_keyword(name),
    }
}

/// Whether the byte at an index is allowed after those before it, with this many still to come.
#[tactic(auto, using(std::proofs::lemmas::List::take_more))]
fn stands(form: NameForm, bytes: &[u8], place: usize, left: usize) -> bool
    requires { place < length bytes.now }
    ensures { result ≡ stands form (take place bytes.now) left (slice_index_or bytes.now place 0) }
{
    let fits = follows(form, &bytes[..place], bytes[place]);
    if left == 0 {
        fits && may_end(form, &bytes[..place + 1])
    } else {
        fits
    }
}

/// A name of this many bytes, and the remaining bytes.
fn letters(form: NameForm, bytes: &[u8], count: usize) -> Result<(&[u8], &[u8]), Halt>
    ensures { Gives (λ x. (x.0.now, x.1.now)) result (letters_at form count bytes.now) }
{
    for place in 0..count {
        if place >= bytes.len() {
            return Err(Halt::Bad(0));
        }
        if !stands(form, bytes, place, count - place - 1) {
            return Err(Halt::Bad(bytes.len() - place));
        }
    }
    Ok(bytes.split_at(count))
}

/// The bytes of a name after their count, and the remaining bytes.
#[tactic(auto, unfolding(crate::specs::Reading::name_at))]
pub fn name(form: NameForm, bytes: &[u8]) -> Result<(&[u8], &[u8]), Halt>
    ensures { Gives (λ x. (x.0.now, x.1.now)) result (name_at form bytes.now) }
{
    let (count, rest) = number(bytes, 4, 1, LONGEST_NAME as u64)?;
    letters(form, rest, count as usize)
}
