//! The effect of plain instructions on the kinds of the operands.

ghost use Rattle.std.specs.Prelude.{◌≡◌, ◌≤◌, ◌+◌, length, slice_get, Option, None, if◌then◌else◌};
ghost use Rattle.stack_code.specs.Shapes.{sort_of};
ghost use Rattle.stack_code.specs.Valid.{after, if_atom, Kinds, pop, pop_any, pop_element, pop_part, pop_slot, push, push_element, push_part, push_slot, two_for_one};
ghost use Rattle.stack_code.specs.KindLists.{Changes, Leaves, list_at};

use crate::instr::Operand;
use crate::kind_lists::KindLists;
use crate::shapes::Shape;

/// The kind of a slot.
fn slot(slots: &[Operand], s: u8) -> Option<Operand>
    ensures { result ≡ slice_get slots.now s }
{
    match slots.get(s as usize) {
        Some(kind) => Some(*kind),
        None => None,
    }
}

/// Whether a slot holds an atom.
fn holds_atom(slots: &[Operand], s: u8) -> bool
    ensures { (r : Option Kinds) → if_atom (slice_get slots.now s) r ≡ (if result then r else None) }
{
    match slot(slots, s) {
        None => false,
        Some(kind) => match kind {
            Operand::Number => false,
            Operand::Atom => true,
        },
    }
}

/// The list after the value of a slot is pushed.
#[tactic(auto, using(crate::proofs::KindNotes::grows_same, crate::proofs::KindNotes::grows_on))]
fn push_local(lists: &mut KindLists, slots: &[Operand], s: u8, id: u32) -> Option<u32>
    requires id { id ≤ length lists.old.nodes }
    requires room { 1 ≤ lists.old.room }
    ensures list { Changes (push_slot (slice_get slots.now s)) lists.old.nodes lists.new.nodes id result }
    ensures room { lists.old.room ≤ lists.new.room + 1 }
{
    match slot(slots, s) {
        None => None,
        Some(kind) => lists.give(Some(id), kind),
    }
}

/// The list after an operand is popped into a slot.
#[tactic(auto, using(crate::proofs::KindNotes::grows_same, crate::proofs::KindNotes::grows_on))]
fn pop_local(lists: &KindLists, slots: &[Operand], s: u8, id: u32) -> Option<u32>
    requires { id ≤ length lists.now.nodes }
    ensures { Changes (pop_slot (slice_get slots.now s)) lists.now.nodes lists.now.nodes id result }
{
    match slot(slots, s) {
        None => None,
        Some(kind) => lists.pop(kind, id),
    }
}

/// The list after an operand is popped.
#[tactic(auto, using(crate::proofs::KindNotes::grows_same, crate::proofs::KindNotes::grows_on))]
fn pop_one(lists: &KindLists, id: u32) -> Option<u32>
    requires { id ≤ length lists.now.nodes }
    ensures { Changes pop_any lists.now.nodes lists.now.nodes id result }
{
    match lists.top(id) {
        None => None,
        Some((_, below)) => Some(below),
    }
}

/// The list after the operand on top is replaced by one of another kind.
#[tactic(auto, using(crate::proofs::KindNotes::grows_same, crate::proofs::KindNotes::grows_on))]
fn replace_top(lists: &mut KindLists, from: Operand, to: Operand, id: u32) -> Option<u32>
    requires id { id ≤ length lists.old.nodes }
    requires room { 1 ≤ lists.old.room }
    ensures list { Leaves lists.old.nodes lists.new.nodes (push to (pop from (list_at lists.old.nodes id))) result }
    ensures room { lists.old.room ≤ lists.new.room + 1 }
{
    let below = lists.pop(from, id);
    lists.give(below, to)
}

/// The list after the number on top is pushed once more.
#[tactic(auto, using(crate::proofs::KindNotes::grows_same, crate::proofs::KindNotes::grows_on))]
fn push_again(lists: &mut KindLists, id: u32) -> Option<u32>
    requires id { id ≤ length lists.old.nodes }
    requires room { 2 ≤ lists.old.room }
    ensures list { Changes two_for_one lists.old.nodes lists.new.nodes id result }
    ensures room { lists.old.room ≤ lists.new.room + 2 }
{
    let below = lists.pop(Operand::Number, id);
    let once = lists.give(below, Operand::Number);
    lists.give(once, Operand::Number)
}

/// The list after a field of the atom in a slot is pushed.
#[tactic(auto, using(crate::proofs::KindNotes::grows_same, crate::proofs::KindNotes::grows_on))]
fn load_part(lists: &mut KindLists, slots: &[Operand], s: u8, id: u32) -> Option<u32>
    requires id { id ≤ length lists.old.nodes }
    requires room { 1 ≤ lists.old.room }
    ensures list { Changes (push_part (slice_get slots.now s)) lists.old.nodes lists.new.nodes id result }
    ensures room { lists.old.room ≤ lists.new.room + 1 }
{
    if holds_atom(slots, s) {
        lists.give(Some(id), Operand::Number)
    } else {
        None
    }
}

/// The list after a number is popped into a field of the atom in a slot.
#[tactic(auto, using(crate::proofs::KindNotes::grows_same, crate::proofs::KindNotes::grows_on))]
fn store_part(lists: &KindLists, slots: &[Operand], s: u8, id: u32) -> Option<u32>
    requires { id ≤ length lists.now.nodes }
    ensures { Changes (pop_part (slice_get slots.now s)) lists.now.nodes lists.now.nodes id result }
{
    if holds_atom(slots, s) {
        lists.pop(Operand::Number, id)
    } else {
        None
    }
}

/// The list after an index is popped and an element of an array in a slot is pushed.
#[tactic(auto, using(crate::proofs::KindNotes::grows_same, crate::proofs::KindNotes::grows_on))]
fn load_element(lists: &mut KindLists, slots: &[Operand], s: u8, id: u32) -> Option<u32>
    requires id { id ≤ length lists.old.nodes }
    requires room { 1 ≤ lists.old.room }
    ensures list { Changes (push_element (slice_get slots.now s)) lists.old.nodes lists.new.nodes id result }
    ensures room { lists.old.room ≤ lists.new.room + 1 }
{
    if holds_atom(slots, s) {
        replace_top(lists, Operand::Number, Operand::Number, id)
    } else {
        None
    }
}

/// The list after a number and an index are popped into an array in a slot.
#[tactic(auto, using(crate::proofs::KindNotes::grows_same, crate::proofs::KindNotes::grows_on))]
fn store_element(lists: &KindLists, slots: &[Operand], s: u8, id: u32) -> Option<u32>
    requires { id ≤ length lists.now.nodes }
    ensures { Changes (pop_element (slice_get slots.now s)) lists.now.nodes lists.now.nodes id result }
{
    if holds_atom(slots, s) {
        lists.pop_two(Operand::Number, Operand::Number, id)
    } else {
        None
    }
}

/// The list after an instruction of this shape. None if the operands are not those that it pops, or
/// if it jumps, calls or returns.
#[tactic(auto, using(crate::proofs::KindNotes::grows_same, crate::proofs::KindNotes::grows_on))]
pub fn after(lists: &mut KindLists, slots: &[Operand], shape: Shape, id: u32) -> Option<u32>
    requires id { id ≤ length lists.old.nodes }
    requires room { 2 ≤ lists.old.room }
    ensures list { Changes (after slots.now (sort_of shape)) lists.old.nodes lists.new.nodes id result }
    ensures room { lists.old.room ≤ lists.new.room + 2 }
{
    match shape {
        Shape::GiveNumber(_) | Shape::Field(_, _) => lists.give(Some(id), Operand::Number),
        Shape::GiveAtom(_) | Shape::Own => lists.give(Some(id), Operand::Atom),
        Shape::One(_)
        | Shape::AskLive
        | Shape::AskEmpty
        | Shape::Draw
        | Shape::DrawOneIn
        | Shape::FieldAt(_, _, _) => lists.replace_one(id),
        Shape::Two(_) => lists.replace_two(id),
        Shape::Load(s) => push_local(lists, slots, s, id),
        Shape::Store(s) => pop_local(lists, slots, s, id),
        Shape::Drop => pop_one(lists, id),
        Shape::SetField(_, _) => lists.pop(Operand::Number, id),
        Shape::Part(s, _, _) => load_part(lists, slots, s, id),
        Shape::SetPart(s, _, _) => store_part(lists, slots, s, id),
        Shape::Site => replace_top(lists, Operand::Number, Operand::Atom, id),
        Shape::SetSite => lists.pop_two(Operand::Atom, Operand::Number, id),
        Shape::Exchange | Shape::SetFieldAt(_, _, _) => {
            lists.pop_two(Operand::Number, Operand::Number, id)
        }
        Shape::Same(_) => replace_top(lists, Operand::Atom, Operand::Number, id),
        Shape::Double => push_again(lists, id),
        Shape::PartAt(s, _, _, _) => load_element(lists, slots, s, id),
        Shape::SetPartAt(s, _, _, _) => store_element(lists, slots, s, id),
        Shape::Goto(_)
        | Shape::GotoFalse(_)
        | Shape::Take
        | Shape::Enter(_)
        | Shape::GiveBack
        | Shape::Leave => None,
    }
}
