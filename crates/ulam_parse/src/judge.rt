//! Whether tokens have a tree, and if not, where and why not.
ghost use Rattle.std.specs.Prelude.{◌≡◌, ◌⊎◌, ◌<◌, ◌≤◌, ◌+◌, ◌++◌, length, map, Some, None, IfOk, IfErr};
ghost use Rattle.ulam_tree.specs.RawViews.{item_of};
ghost use Rattle.ulam_parse.specs.Files as spec;
ghost use Rattle.ulam_parse.specs.Nesting.{outside};
ghost use Rattle.ulam_parse.specs.Sentences.{EndsOnce, IsSentence, IsFaultOf, deep_from};
ghost use Rattle.ulam_parse.specs.Told.{ReadsTo, LeftAt};
ghost use Rattle.ulam_parse.specs.Views.{Fails, from};

use crate::deep::first_deep;
use crate::fault::ParseFault;
use crate::halt::Halt;
use crate::item::items;
use crate::take::{count_from, mark_at};
use crate::tape::Tape;
use feast_base::Place;
use std::alloc::Global;
use ulam_tree::Item;

/// The items of all tokens.
#[tactic(auto, using(crate::proofs::Laws::front_none))]
fn whole(alloc: Global, tape: &Tape) -> Result<Vec<Item>, Halt>
    ensures read { IfOk result (λ v. ReadsTo (from tape.now 0) (map item_of v.items)) }
    ensures stops { IfErr result (λ e. Fails e (spec.whole_file (from tape.now 0))) }
{
    let mut found = Vec::new(alloc);
    items(alloc, &mut found, tape, 0)?;
    Ok(found)
}

/// The place of the first of the last `left` tokens.
fn place_of_left(tape: &Tape, left: usize) -> Place
    requires some { 0 < left }
    requires few { left ≤ length (from tape.now 0) }
    ensures { LeftAt (from tape.now 0) left result }
{
    let at = count_from(tape, 0) - left;
    match mark_at(tape, at) {
        Some(mark) => mark.place,
        None => unreachable!(),
    }
}

/// The first `len` tokens.
fn front<'t>(tape: &Tape<'t>, len: usize) -> Tape<'t>
    requires { len ≤ length tape.now.marks.now }
    ensures split { from tape.now 0 ≡ from result 0 ++ from tape.now len }
    ensures long { length (from result 0) ≡ len }
{
    Tape {
        bytes: tape.bytes,
        marks: &tape.marks[..len],
    }
}

/// The items of tokens that nowhere nest too deeply, or their fault.
fn of_shallow(alloc: Global, tape: &Tape) -> Result<Vec<Item>, ParseFault>
    requires ends { EndsOnce (from tape.now 0) }
    requires shallow { deep_from 0 outside (from tape.now 0) ≡ None }
    ensures found { IfOk result (λ v. IsSentence (map item_of v.items) (from tape.now 0)) }
    ensures fault { IfErr result (λ e. (e ≡ ParseFault.NoMemory) ⊎ IsFaultOf (from tape.now 0) e) }
{
    match whole(alloc, tape) {
        Ok(found) => Ok(found),
        Err(Halt::Left(left)) => Err(ParseFault::Syntax(place_of_left(tape, left))),
        Err(Halt::OutOfSteps) => unreachable!(),
        Err(Halt::NoMemory) => Err(ParseFault::NoMemory),
    }
}

/// The fault of tokens that first nest too deeply at an index.
fn of_deep(alloc: Global, tape: &Tape, at: usize) -> ParseFault
    requires ends { EndsOnce (from tape.now 0) }
    requires deep { deep_from 0 outside (from tape.now 0) ≡ Some at }
    ensures { (result ≡ ParseFault.NoMemory) ⊎ IsFaultOf (from tape.now 0) result }
{
    let Some(mark) = mark_at(tape, at) else {
        unreachable!();
    };
    let seen = front(tape, at + 1);
    match whole(alloc, &seen) {
        Ok(_) => ParseFault::TooDeep(mark.place),
        Err(Halt::Left(left)) => {
            if left == 0 {
                ParseFault::TooDeep(mark.place)
            } else {
                ParseFault::Syntax(place_of_left(&seen, left))
            }
        }
        Err(Halt::OutOfSteps) => unreachable!(),
        Err(Halt::NoMemory) => ParseFault::NoMemory,
    }
}

/// The items of tokens, or their first fault.
pub fn judge(alloc: Global, tape: &Tape) -> Result<Vec<Item>, ParseFault>
    requires { EndsOnce (from tape.now 0) }
    ensures found { IfOk result (λ v. IsSentence (map item_of v.items) (from tape.now 0)) }
    ensures fault { IfErr result (λ e. (e ≡ ParseFault.NoMemory) ⊎ IsFaultOf (from tape.now 0) e) }
{
    match first_deep(alloc, tape) {
        Ok(None) => of_shallow(alloc, tape),
        Ok(Some(at)) => Err(of_deep(alloc, tape, at)),
        Err(_) => Err(ParseFault::NoMemory),
    }
}
