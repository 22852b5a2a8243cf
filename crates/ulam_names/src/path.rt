//! Paths.
ghost use Rattle.ulam_names.specs.BodyWalk as walk;
ghost use Rattle.ulam_names.specs.Shown.{Gives, AddsFound};
ghost use Rattle.ulam_tree.specs.ResolvedViews.{resolved_path};

use crate::fault::NameFault;
use crate::half::HalfClass;
use crate::scope::{Context, Entry, first_name, next_name};
use feast_base::Place;
use std::alloc::Global;
use ulam_tree as raw;
use ulam_tree::Word;
use ulam_tree::resolved::{Path, Step, Ty};

/// Adds the steps of further names.
fn push_steps(
    heads: &[HalfClass],
    inside: Ty,
    words: &[Word],
    steps: &mut Vec<Step>,
) -> Result<(), NameFault>
    ensures { AddsFound steps.old.items steps.new.items result (walk.steps_after heads.now inside words.now) }
{
    let mut inside = inside;
    for word in words {
        match next_name(heads, inside, word.name.bytes()) {
            Some((step, next)) => {
                steps.push(step)?;
                inside = next;
            }
            None => return Err(NameFault::UnknownName(word.place)),
        }
    }
    Ok(())
}

/// A path that begins with a step.
fn steps_from(
    alloc: Global,
    heads: &[HalfClass],
    place: Place,
    first: Step,
    inside: Ty,
    words: &[Word],
) -> Result<Path, NameFault>
    ensures { Gives resolved_path result (walk.path_by heads.now place first inside words.now) }
{
    let mut steps = Vec::new(alloc);
    steps.push(first)?;
    push_steps(heads, inside, words, &mut steps)?;
    Ok(Path { place, steps })
}

/// A path of one name.
pub fn one_word(
    alloc: Global,
    context: &Context,
    entries: &[Entry],
    word: &Word,
) -> Result<Path, NameFault>
    ensures { Gives resolved_path result (walk.one_word context.now entries.now word.now) }
{
    match first_name(context, entries, word.name.bytes()) {
        Some((step, inside)) => steps_from(alloc, context.heads, word.place, step, inside, &[]),
        None => Err(NameFault::UnknownName(word.place)),
    }
}

/// A path.
pub fn path(
    alloc: Global,
    context: &Context,
    entries: &[Entry],
    path: &raw::Path,
) -> Result<Path, NameFault>
    ensures { Gives resolved_path result (walk.path context.now entries.now path.now) }
{
    match path.own {
        Some(place) => steps_from(
            alloc,
            context.heads,
            place,
            Step::Own,
            Ty::Class { class: context.own },
            path.words.as_slice(),
        ),
        None => match path.words.as_slice() {
            [] => Err(NameFault::UnknownName(Place {
                file: 0,
                line: 0,
                column: 0,
            })),
            [word, words @ ..] => match first_name(context, entries, word.name.bytes()) {
                Some((step, inside)) => steps_from(
                    alloc,
                    context.heads,
                    word.place,
                    step,
                    inside,
                    words,
                ),
                None => Err(NameFault::UnknownName(word.place)),
            },
        },
    }
}
