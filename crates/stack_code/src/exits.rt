//! Which places the instructions of a function lead to, and with which operands.

ghost use Rattle.std.specs.Prelude.{◌≡◌, ◌≤◌, ◌+◌, List, length, Option, Some};
ghost use Rattle.stack_code.specs.Shapes.{sort_of};
ghost use Rattle.stack_code.specs.Sorts.{Goto, GotoFalse};
ghost use Rattle.stack_code.specs.Valid.{exits, exits_of, back_of, forward_fits, back_fits, jump_fits, is_turn, instr_before, answer_found, is_nothing, end_exit, after_call, map_answer, falls_exit, Kinds};
ghost use Rattle.stack_code.specs.KindLists.{list_at, Leaves, Changes, maybe, MaybeFits, around_of, ExitLeaves, FindsExit, IsExit, takes};
ghost use Rattle.stack_code.specs.declared.kind_lists.Node.{Node};

use crate::code::{RawCode, RawFunction};
use crate::effects::after;
use crate::fits::args_fit;
use crate::instr::{Answer, Instr, Operand};
use crate::kind_lists::KindLists;
use crate::limits::MOST_OPERANDS;
use crate::shapes::Shape;

/// Where a place leads: the list that falls through to the next place, and a jump with its list.
#[derive(Clone, Copy)]
pub struct Exit {
    /// The list that falls through to the next place.
    pub falls: Option<u32>,
    /// The target of a jump, and the list that arrives there.
    pub jumps: Option<(u32, u32)>,
}

/// A function in its code, and the place where the next one begins.
#[derive(Clone, Copy)]
pub struct Around<'a> {
    /// The code.
    pub code: &'a RawCode,
    /// The function.
    pub function: &'a RawFunction,
    /// The place after its last instruction.
    pub end: usize,
}

/// The target of the backward jump at a place, if there is one.
#[tactic(auto, unfolding(crate::specs::Valid::back_of))]
fn back_of(instrs: &[Instr], p: usize) -> Option<u32>
    ensures { result ≡ back_of instrs.now p }
{
    match instrs.get(p) {
        Some(Instr::Jump(q)) => { if (*q as usize) < p { Some(*q) } else { None } }
        _ => None,
    }
}

/// Whether an instruction is a `Turn`.
fn is_turn(instr: Instr) -> bool
    ensures { result ≡ is_turn (Some instr) }
{
    match instr {
        Instr::Turn => true,
        _ => false,
    }
}

/// Whether the instruction before a place is a `Turn`.
#[tactic(auto, using(crate::proofs::Arguments::before_first, crate::proofs::Arguments::before_other))]
fn after_turn(instrs: &[Instr], p: usize) -> bool
    ensures { result ≡ is_turn (instr_before instrs.now p) }
{
    if p == 0 {
        return false;
    }
    match instrs.get(p - 1) {
        Some(instr) => is_turn(*instr),
        None => false,
    }
}

impl Around<'_> {
    /// Whether a forward jump is allowed: its target is inside the function and is no backward jump.
    fn forward_fits(&self, p: usize, q: u32) -> bool
        ensures { result ≡ forward_fits (around_of self.now) p q }
    {
        let q = q as usize;
        if p < q {
            if q < self.end {
                return back_of(self.code.instrs(), q).is_none();
            }
        }
        false
    }

    /// Whether a backward jump is allowed: it comes right after a `Turn`, and its target is inside
    /// the function and is no backward jump.
    fn back_fits(&self, p: usize, q: u32) -> bool
        ensures { result ≡ back_fits (around_of self.now) p q }
    {
        let q = q as usize;
        if q < p {
            if self.function.first() as usize <= q {
                if after_turn(self.code.instrs(), p) {
                    return back_of(self.code.instrs(), q).is_none();
                }
            }
        }
        false
    }

    /// Whether a jump is allowed.
    fn jump_fits(&self, p: usize, q: u32) -> bool
        ensures { result ≡ jump_fits (around_of self.now) p q }
    {
        if p < q as usize {
            self.forward_fits(p, q)
        } else {
            self.back_fits(p, q)
        }
    }

    /// Where a jump leads, if it is allowed.
    #[tactic(auto, using(crate::proofs::KindNotes::grows_same))]
    fn jump(&self, lists: &KindLists, p: usize, q: u32, id: u32) -> Option<Exit>
        requires { id ≤ length lists.now.nodes }
        ensures { IsExit lists.now.nodes (exits (around_of self.now) p (Goto q) (list_at lists.now.nodes id)) result }
    {
        if self.jump_fits(p, q) {
            Some(Exit {
                falls: None,
                jumps: Some((q, id)),
            })
        } else {
            None
        }
    }

    /// Where a jump on 0 leads, if it is allowed and a number is on top.
    #[tactic(auto, using(crate::proofs::KindNotes::grows_same))]
    fn fork(&self, lists: &KindLists, p: usize, q: u32, id: u32) -> Option<Exit>
        requires { id ≤ length lists.now.nodes }
        ensures { IsExit lists.now.nodes (exits (around_of self.now) p (GotoFalse q) (list_at lists.now.nodes id)) result }
    {
        match lists.pop(Operand::Number, id) {
            None => None,
            Some(below) => {
                if self.forward_fits(p, q) {
                    Some(Exit {
                        falls: Some(below),
                        jumps: Some((q, below)),
                    })
                } else {
                    None
                }
            }
        }
    }

    /// Where an instruction of this shape leads from a list.
    #[tactic(auto, using(crate::proofs::KindNotes::grows_same))]
    fn lead(&self, lists: &mut KindLists, shape: Shape, p: usize, id: u32) -> Option<Exit>
        requires id { id ≤ length lists.old.nodes }
        requires room { 2 ≤ lists.old.room }
        ensures exit { FindsExit (exits (around_of self.now) p (sort_of shape)) lists.old.nodes lists.new.nodes id result }
        ensures room { lists.old.room ≤ lists.new.room + 2 }
    {
        match shape {
            Shape::Goto(q) => self.jump(lists, p, q, id),
            Shape::GotoFalse(q) => self.fork(lists, p, q, id),
            Shape::Take => Some(Exit {
                falls: Some(id),
                jumps: None,
            }),
            Shape::GiveBack => {
                let allowed = answers(lists, self.function.answer(), id);
                end_if(lists, allowed)
            }
            Shape::Leave => {
                let allowed = gives_nothing(self.function.answer());
                end_if(lists, allowed)
            }
            Shape::Enter(f) => match self.code.functions().get(f as usize) {
                None => None,
                Some(callee) => falls(call(lists, callee, id)),
            },
            other => match after(lists, self.function.slots(), other, id) {
                None => None,
                Some(falls) => Some(Exit {
                    falls: Some(falls),
                    jumps: None,
                }),
            },
        }
    }

    /// Where an instruction leads from a list, or None if it is not allowed there.
    #[tactic(auto, using(crate::proofs::KindNotes::grows_same))]
    pub fn exits(&self, lists: &mut KindLists, i: Instr, p: usize, id: u32) -> Option<Exit>
        requires id { id ≤ length lists.old.nodes }
        requires room { 2 ≤ lists.old.room }
        ensures exit { FindsExit (exits_of (around_of self.now) i p) lists.old.nodes lists.new.nodes id result }
        ensures room { lists.old.room ≤ lists.new.room + 2 }
    {
        if !args_fit(i) {
            return None;
        }
        if lists.depth(id) > MOST_OPERANDS {
            return None;
        }
        self.lead(lists, i.shape(), p, id)
    }
}

/// The end of a function, if it is allowed.
#[tactic(auto, using(crate::proofs::KindNotes::grows_same))]
fn end_if(lists: &KindLists, allowed: bool) -> Option<Exit>
    ensures { IsExit lists.now.nodes (end_exit allowed) result }
{
    if allowed {
        Some(Exit {
            falls: None,
            jumps: None,
        })
    } else {
        None
    }
}

/// Whether a function returns nothing.
pub fn gives_nothing(answer: Answer) -> bool
    ensures { result ≡ is_nothing answer }
{
    match answer {
        Answer::Nothing => true,
        Answer::Number | Answer::Atom => false,
    }
}

/// Whether the top of a list is what a function returns.
fn answers(lists: &KindLists, answer: Answer, id: u32) -> bool
    requires { id ≤ length lists.now.nodes }
    ensures { result ≡ answer_found answer (list_at lists.now.nodes id) }
{
    match lists.top(id) {
        None => false,
        Some((kind, _)) => match answer {
            Answer::Nothing => false,
            Answer::Number => match kind {
                Operand::Number => true,
                Operand::Atom => false,
            },
            Answer::Atom => match kind {
                Operand::Number => false,
                Operand::Atom => true,
            },
        },
    }
}

/// The list below the arguments of a call. The last argument is on top.
fn takes(lists: &KindLists, slots: &[Operand], params: u32, id: u32) -> Option<u32>
    requires list { id ≤ length lists.now.nodes }
    requires params { params ≤ length slots.now }
    ensures list { maybe lists.now.nodes result ≡ takes params slots.now (list_at lists.now.nodes id) }
    ensures fits { MaybeFits lists.now.nodes result }
{
    let mut id = id;
    for k in (0..params).rev() {
        match lists.pop(slots[k as usize], id) {
            None => return None,
            Some(below) => id = below,
        }
    }
    Some(id)
}

/// The list after a call.
fn call(lists: &mut KindLists, callee: &RawFunction, id: u32) -> Option<u32>
    requires id { id ≤ length lists.old.nodes }
    requires room { 1 ≤ lists.old.room }
    ensures list { Changes (after_call (Some callee.now)) lists.old.nodes lists.new.nodes id result }
    ensures room { lists.old.room ≤ lists.new.room + 1 }
{
    if callee.params() as usize > callee.slots().len() {
        return None;
    }
    let below = takes(lists, callee.slots(), callee.params(), id);
    with_answer(lists, callee.answer(), below)
}

/// A list, if there is one, with what a function returns on top.
#[tactic(auto, using(crate::proofs::KindNotes::grows_same))]
fn with_answer(lists: &mut KindLists, answer: Answer, below: Option<u32>) -> Option<u32>
    requires id { MaybeFits lists.old.nodes below }
    requires room { 1 ≤ lists.old.room }
    ensures list { Leaves lists.old.nodes lists.new.nodes (map_answer answer (maybe lists.old.nodes below)) result }
    ensures room { lists.old.room ≤ lists.new.room + 1 }
{
    match below {
        None => None,
        Some(id) => match answer {
            Answer::Nothing => Some(id),
            Answer::Number => lists.give(Some(id), Operand::Number),
            Answer::Atom => lists.give(Some(id), Operand::Atom),
        },
    }
}

/// The exit by which a list, if there is one, falls through.
fn falls(list: Option<u32>) -> Option<Exit>
    ensures { (old new : List Node) (o : Option Kinds) → Leaves old new o list → ExitLeaves old new (falls_exit o) result }
{
    match list {
        None => None,
        Some(falls) => Some(Exit {
            falls: Some(falls),
            jumps: None,
        }),
    }
}
