//! The pass over the places of a function, and over all functions.

ghost use Rattle.std.specs.Prelude.{◌≡◌, ◌<◌, ◌≤◌, ◌+◌, ◌-◌, ◌*◌, ◌^◌, length, drop, is_some, IsTrue, Some, []};
ghost use Rattle.stack_code.specs.Valid.{end_with, exits_of, function_fits, pass, pass_all, pass_function, pass_place};
ghost use Rattle.stack_code.specs.KindLists.{notes_of, NotesFit, maybe, MaybeFits, around_of, PlaceLeaves, PassLeaves, FunctionLeaves};

use crate::code::{RawCode, RawFunction};
use crate::exits::Around;
use crate::instr::Instr;
use crate::kind_lists::{KindLists, put_note};
use crate::limits::MOST_SLOTS;

impl Around<'_> {
    /// One place of the pass: what falls through to the next, or None if the code is not valid.
    fn place(
        &self,
        lists: &mut KindLists,
        notes: &mut Vec<u32>,
        i: Instr,
        p: usize,
        here: Option<u32>,
    ) -> Option<Option<u32>>
        requires notes { NotesFit lists.old.nodes notes.old.items }
        requires here { MaybeFits lists.old.nodes here }
        requires room { 2 ≤ lists.old.room }
        ensures place { PlaceLeaves (pass_place (exits_of (around_of self.now) i p) p (maybe lists.old.nodes here) (notes_of lists.old.nodes notes.old.items)) lists.new.nodes notes.new.items result }
        ensures room { lists.old.room ≤ lists.new.room + 2 }
    {
        // `len` says that a list's number and 1 fit in 32 bits.
        let _few = lists.len();
        match lists.arrive(notes.as_slice(), here, p) {
            None => None,
            Some(id) => {
                put_note(notes, p, id + 1);
                match self.exits(lists, i, p, id) {
                    None => None,
                    Some(exit) => match exit.jumps {
                        None => Some(exit.falls),
                        Some((q, ks)) => {
                            // Lists may have been added, so `len` says it again.
                            let _still = lists.len();
                            if lists.note(notes, q as usize, ks) {
                                Some(exit.falls)
                            } else {
                                None
                            }
                        }
                    },
                }
            }
        }
    }

    /// The pass over the instructions of the function from a place on.
    fn pass(
        &self,
        lists: &mut KindLists,
        notes: &mut Vec<u32>,
        instrs: &[Instr],
        first: usize,
    ) -> bool
        requires notes { NotesFit lists.old.nodes notes.old.items }
        requires small { first + length instrs.now < 2 ^ 64 }
        requires room { 2 * length instrs.now ≤ lists.old.room }
        ensures pass { PassLeaves (pass (around_of self.now) instrs.now first (Some []) (notes_of lists.old.nodes notes.old.items)) lists.new.nodes notes.new.items result }
        ensures room { lists.old.room ≤ lists.new.room + 2 * length instrs.now }
    {
        let mut here = Some(0u32);
        let mut p = first;
        for i in instrs {
            match self.place(lists, notes, *i, p, here) {
                None => return false,
                Some(falls) => here = falls,
            }
            p += 1;
        }
        here.is_none()
    }
}

/// Whether a function begins at `p`, is not empty and has slots that are allowed.
fn function_fits(function: &RawFunction, p: usize, end: usize) -> bool
    ensures { result ≡ function_fits function.now p end }
{
    if function.first() as usize == p {
        if p < end {
            if function.params() as usize <= function.slots().len() {
                return function.slots().len() <= MOST_SLOTS;
            }
        }
    }
    false
}

/// The pass over a function that has to reach from `p` to `end`.
#[tactic(auto, using(crate::proofs::AllFunctions::one_false, crate::proofs::AllFunctions::one_true, crate::proofs::AllFunctions::one_short))]
fn pass_function(
    code: &RawCode,
    function: &RawFunction,
    lists: &mut KindLists,
    notes: &mut Vec<u32>,
    p: usize,
    end: usize,
) -> bool
    requires notes { NotesFit lists.old.nodes notes.old.items }
    requires room { 2 * (length code.now.instrs - p) ≤ lists.old.room }
    ensures function { FunctionLeaves (pass_function code.now function.now p end (notes_of lists.old.nodes notes.old.items)) (length code.now.instrs < end) lists.new.nodes notes.new.items result }
    ensures room { IsTrue result → 2 * (length code.now.instrs - end) ≤ lists.new.room }
{
    if !function_fits(function, p, end) {
        return false;
    }
    if end > code.instrs().len() {
        return false;
    }
    let around = Around {
        code,
        function,
        end,
    };
    around.pass(lists, notes, &code.instrs()[p..end], p)
}

/// The place where function `k` begins, or the end of the code.
pub fn end_of(code: &RawCode, k: usize) -> usize
    ensures { result ≡ end_with (length code.now.instrs) (drop k code.now.functions) }
{
    match code.functions().get(k) {
        Some(function) => function.first() as usize,
        None => code.instrs().len(),
    }
}

/// The pass over all functions.
pub fn pass_all(code: &RawCode, lists: &mut KindLists, notes: &mut Vec<u32>) -> bool
    requires notes { NotesFit lists.old.nodes notes.old.items }
    requires room { 2 * length code.now.instrs ≤ lists.old.room }
    ensures { result ≡ is_some (pass_all code.now code.now.functions 0 (notes_of lists.old.nodes notes.old.items)) }
{
    let functions = code.functions();
    let mut p = 0usize;
    for k in 0..functions.len() {
        let end = end_of(code, k + 1);
        let function = &functions[k];
        if !pass_function(code, function, lists, notes, p, end) {
            return false;
        }
        p = end;
    }
    p == code.instrs().len()
}
