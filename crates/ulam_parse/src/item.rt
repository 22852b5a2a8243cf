//! Members, classes and files.
ghost use Rattle.ulam_tree.specs.RawViews.{class_of, item_of, shared_member};
ghost use Rattle.ulam_parse.specs.Files as spec;
ghost use Rattle.ulam_parse.specs.Reading.{behind};
ghost use Rattle.ulam_parse.specs.Views.{Reads, Finds, members_in, items_in};

use crate::halt::Halt;
use crate::member::member;
use crate::symbol::Symbol;
use crate::take::{count_from, expect, past, sees, skip, word};
use crate::tape::Tape;
use std::alloc::Global;
use std::rc::Rc;
use ulam_tree::{Class, Item, Member};

/// A member that classes may share.
fn shared_member(alloc: Global, tape: &Tape, at: usize) -> Result<(Rc<Member>, usize), Halt>
    ensures { Reads shared_member spec.member tape.now at result }
{
    let (value, next) = member(alloc, tape, at)?;
    Ok((Rc::new(alloc, value)?, next))
}

/// Members, appended to those read so far, and the closing brace.
fn members(
    alloc: Global,
    found: &mut Vec<Rc<Member>>,
    tape: &Tape,
    at: usize,
) -> Result<usize, Halt>
    ensures { Finds (members_in found.new) (behind (members_in found.old) spec.all_members) tape.now at result }
{
    let mut next = at;
    'turns: for _turn in 0..count_from(tape, at) + 1 {
        if let Some(behind) = past(Symbol::CloseBrace, tape, next) {
            return Ok(behind);
        }
        let (value, behind) = shared_member(alloc, tape, next)?;
        found.push(value)?;
        next = behind;
    }
    Err(Halt::OutOfSteps)
}

/// A class that begins with a keyword.
#[tactic(auto, unfolding(crate::specs::Files::class_in))]
fn class_in(
    alloc: Global,
    keyword: Symbol,
    quark: bool,
    tape: &Tape,
    at: usize,
) -> Result<(Class, usize), Halt>
    ensures { Reads class_of (spec.class_in keyword quark) tape.now at result }
{
    let next = skip(keyword, tape, at)?;
    let (name, next) = expect(Symbol::TypeName, tape, next)?;
    let next = skip(Symbol::OpenBrace, tape, next)?;
    let mut found = Vec::new(alloc);
    let next = members(alloc, &mut found, tape, next)?;
    let word = word(alloc, tape, name)?;
    Ok((
        Class {
            quark,
            word,
            members: found,
        },
        next,
    ))
}

/// The version of the language.
#[tactic(auto, unfolding(crate::specs::Files::version_in))]
fn version_in(tape: &Tape, at: usize) -> Result<(Item, usize), Halt>
    ensures { Reads item_of spec.version_in tape.now at result }
{
    let next = skip(Symbol::Ulam, tape, at)?;
    let (mark, next) = expect(Symbol::Number, tape, next)?;
    let next = skip(Symbol::Semi, tape, next)?;
    Ok((Item::Ulam { number: mark.value }, next))
}

/// A `use`.
#[tactic(auto, unfolding(crate::specs::Files::use_in))]
fn use_in(alloc: Global, tape: &Tape, at: usize) -> Result<(Item, usize), Halt>
    ensures { Reads item_of spec.use_in tape.now at result }
{
    let next = skip(Symbol::Use, tape, at)?;
    let (name, next) = expect(Symbol::TypeName, tape, next)?;
    let next = skip(Symbol::Semi, tape, next)?;
    let word = word(alloc, tape, name)?;
    Ok((Item::Uses { word }, next))
}

/// An element or a quark.
fn class(alloc: Global, tape: &Tape, at: usize) -> Result<(Class, usize), Halt>
    ensures { Reads class_of spec.any_class tape.now at result }
{
    if sees(Symbol::Quark, tape, at) {
        class_in(alloc, Symbol::Quark, true, tape, at)
    } else {
        class_in(alloc, Symbol::Element, false, tape, at)
    }
}

/// An item.
#[tactic(auto, unfolding(crate::specs::Files::item, crate::specs::Files::class_item))]
fn item(alloc: Global, tape: &Tape, at: usize) -> Result<(Item, usize), Halt>
    ensures { Reads item_of spec.item tape.now at result }
{
    if sees(Symbol::Ulam, tape, at) {
        return version_in(tape, at);
    }
    if sees(Symbol::Use, tape, at) {
        return use_in(alloc, tape, at);
    }
    let (class, next) = class(alloc, tape, at)?;
    Ok((Item::Class { class }, next))
}

/// Items, appended to those read so far, up to `End`.
pub fn items(alloc: Global, found: &mut Vec<Item>, tape: &Tape, at: usize) -> Result<usize, Halt>
    ensures { Finds (items_in found.new) (behind (items_in found.old) spec.whole_file) tape.now at result }
{
    let mut next = at;
    'turns: for _turn in 0..count_from(tape, at) + 1 {
        if sees(Symbol::End, tape, next) {
            return Ok(next);
        }
        let (value, behind) = item(alloc, tape, next)?;
        found.push(value)?;
        next = behind;
    }
    Err(Halt::OutOfSteps)
}
