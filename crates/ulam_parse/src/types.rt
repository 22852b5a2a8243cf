//! Widths, types and paths.
ghost use Rattle.std.specs.Prelude.{option_map};
ghost use Rattle.ulam_tree.specs.RawViews.{width_of, type_of, path_of};
ghost use Rattle.ulam_parse.specs.Reading as spec;
ghost use Rattle.ulam_parse.specs.Views.{Reads, Finds, words_in};

use crate::halt::Halt;
use crate::symbol::Symbol;
use crate::take::{count_from, expect, past, sees, skip, word};
use crate::tape::Tape;
use std::alloc::Global;
use ulam_tree::{Path, TypeRef, Width, Word};

/// A width.
#[tactic(auto, unfolding(crate::specs::Reading::width))]
pub fn width(alloc: Global, tape: &Tape, at: usize) -> Result<(Width, usize), Halt>
    ensures { Reads width_of spec.width tape.now at result }
{
    if sees(Symbol::Number, tape, at) {
        let (mark, next) = expect(Symbol::Number, tape, at)?;
        Ok((Width::Number { value: mark.value }, next))
    } else {
        let (mark, next) = expect(Symbol::Name, tape, at)?;
        let word = word(alloc, tape, mark)?;
        Ok((Width::Named { word }, next))
    }
}

/// A width between two symbols.
#[tactic(auto, unfolding(crate::specs::Reading::width_between))]
pub fn width_between(
    alloc: Global,
    before: Symbol,
    behind: Symbol,
    tape: &Tape,
    at: usize,
) -> Result<(Option<Width>, usize), Halt>
    ensures { Reads (option_map width_of) (spec.width_between before behind) tape.now at result }
{
    let next = skip(before, tape, at)?;
    let (width, next) = width(alloc, tape, next)?;
    let next = skip(behind, tape, next)?;
    Ok((Some(width), next))
}

/// The width in brackets after the name of a type, if there is one.
#[tactic(auto, unfolding(crate::specs::Reading::size))]
fn size(alloc: Global, tape: &Tape, at: usize) -> Result<(Option<Width>, usize), Halt>
    ensures { Reads (option_map width_of) spec.size tape.now at result }
{
    if sees(Symbol::OpenParen, tape, at) {
        width_between(alloc, Symbol::OpenParen, Symbol::CloseParen, tape, at)
    } else {
        Ok((None, at))
    }
}

/// A type.
#[tactic(auto, unfolding(crate::specs::Reading::type_ref))]
pub fn type_ref(alloc: Global, tape: &Tape, at: usize) -> Result<(TypeRef, usize), Halt>
    ensures { Reads type_of spec.type_ref tape.now at result }
{
    let (mark, next) = expect(Symbol::TypeName, tape, at)?;
    let (width, next) = size(alloc, tape, next)?;
    let word = word(alloc, tape, mark)?;
    Ok((TypeRef { word, width }, next))
}

/// The names after dots, appended to those read so far.
fn words_after(alloc: Global, words: &mut Vec<Word>, tape: &Tape, at: usize) -> Result<usize, Halt>
    ensures { Finds (words_in words.new) (spec.behind (words_in words.old) spec.words_after) tape.now at result }
{
    let mut next = at;
    'turns: for _turn in 0..count_from(tape, at) + 1 {
        let Some(behind) = past(Symbol::Dot, tape, next) else {
            return Ok(next);
        };
        let (mark, behind) = expect(Symbol::Name, tape, behind)?;
        words.push(word(alloc, tape, mark)?)?;
        next = behind;
    }
    Err(Halt::OutOfSteps)
}

/// A path.
#[tactic(auto, unfolding(crate::specs::Reading::path))]
pub fn path(alloc: Global, tape: &Tape, at: usize) -> Result<(Path, usize), Halt>
    ensures { Reads path_of spec.path tape.now at result }
{
    let mut words = Vec::new(alloc);
    if sees(Symbol::Own, tape, at) {
        let (mark, next) = expect(Symbol::Own, tape, at)?;
        let next = words_after(alloc, &mut words, tape, next)?;
        Ok((
            Path {
                own: Some(mark.place),
                words,
            },
            next,
        ))
    } else {
        let (mark, next) = expect(Symbol::Name, tape, at)?;
        words.push(word(alloc, tape, mark)?)?;
        let next = words_after(alloc, &mut words, tape, next)?;
        Ok((Path { own: None, words }, next))
    }
}
