//! Lists of operand kinds that share their lower parts, and the notes at places.

ghost use Rattle.std.specs.Prelude.{◌≡◌, ◌<◌, ◌≤◌, ◌+◌, ◌-◌, ◌*◌, ◌^◌, [], ◌∷◌, length, IfOk, IfSome, MatchOption, reverse, slice_set, slice_get, vec_len, Some, None, if◌then◌else◌};
ghost use Rattle.stack_code.specs.Valid.{same_kinds, same_kind, pop, and_pop, push, number_for_one, number_for_two, note, arrive};
ghost use Rattle.stack_code.specs.KindLists.{list_at, IsTree, Grows, Leaves, Changes, list_of_note, notes_of, NotesFit, maybe, MaybeFits, maybe_noted, NotedFits};
ghost use Rattle.stack_code.specs.declared.limits.TheConstants.{MOST_INSTRS};

use crate::instr::Operand;
use feast_base::NoMemory;
use std::alloc::Global;
use std::marker::Model;

/// How many lists an instruction adds at most.
const LISTS_OF_ONE: usize = 2;

/// A list: an earlier list with one kind on top.
#[derive(Clone, Copy)]
pub struct Node {
    /// The number of the earlier list.
    pub below: u32,
    /// The kind on top.
    pub top: Operand,
    /// The length of the list.
    pub depth: u32,
}

/// Lists of operand kinds, by number. List 0 is empty.
#[derive(Drop)]
pub struct KindLists {
    nodes: Vec<Node>,
}

impl Model for KindLists {
    ghost use Rattle.std.specs.Prelude.{reverse, ◌-◌, ◌*◌, ◌≤◌, vec_len, vec_capacity};
    ghost use Rattle.stack_code.specs.KindLists.{Lists, IsTree};
    ghost use Rattle.stack_code.specs.declared.limits.TheConstants.{MOST_INSTRS};

    ghost Value = { Lists };

    ghost view = { λ l. record { nodes = reverse l.nodes.items; room = vec_capacity l.nodes - vec_len l.nodes } };

    ghost invariant = { λ l. IsTree (reverse l.nodes.items) × (vec_len l.nodes ≤ vec_capacity l.nodes) × (vec_capacity l.nodes ≤ 2 * MOST_INSTRS) };
}

impl KindLists {
    /// Only the empty list, with room for two more for each of so many instructions. `NoMemory` if
    /// there is no memory for them.
    pub fn new(alloc: Global, instrs: usize) -> Result<KindLists, NoMemory>
        requires { instrs ≤ MOST_INSTRS }
        ensures empty { IfOk result (λ l. l.nodes ≡ []) }
        ensures room { IfOk result (λ l. l.room ≡ 2 * instrs) }
    {
        let nodes = Vec::with_capacity(alloc, LISTS_OF_ONE * instrs)?;
        Ok(KindLists { nodes })
    }

    /// The number of lists, not counting the empty one.
    pub fn len(&self) -> usize
        ensures value { result ≡ length self.now.nodes }
        ensures most { result ≤ 2 * MOST_INSTRS }
    {
        self.nodes.len()
    }

    /// The node of a list that is not empty.
    #[tactic(auto, using(crate::proofs::KindLists::node_is))]
    fn node(&self, id: u32) -> Node
        requires some { 1 ≤ id }
        requires fits { id ≤ length self.now.nodes }
        ensures list { list_at self.now.nodes id ≡ result.top ∷ list_at self.now.nodes result.below }
        ensures below { result.below < id }
        ensures depth { result.depth ≡ length (list_at self.now.nodes id) }
    {
        self.nodes[(id - 1) as usize]
    }

    /// The length of a list.
    #[tactic(auto, using(crate::proofs::KindLists::list_zero))]
    pub fn depth(&self, id: u32) -> u32
        requires { id ≤ length self.now.nodes }
        ensures { result ≡ length (list_at self.now.nodes id) }
    {
        if id == 0 { 0 } else { self.node(id).depth }
    }

    /// The kind on top, and the list below it. None for the empty list.
    #[tactic(auto, using(crate::proofs::KindLists::list_zero))]
    pub fn top(&self, id: u32) -> Option<(Operand, u32)>
        requires { id ≤ length self.now.nodes }
        ensures list { MatchOption result (list_at self.now.nodes id ≡ []) (λ r. list_at self.now.nodes id ≡ r.0 ∷ list_at self.now.nodes r.1) }
        ensures below { IfSome result (λ r. r.1 < id) }
    {
        if id == 0 {
            return None;
        }
        let node = self.node(id);
        Some((node.top, node.below))
    }

    /// The list with a kind on top.
    pub fn push(&mut self, id: u32, top: Operand) -> u32
        requires id { id ≤ length self.old.nodes }
        requires room { 1 ≤ self.old.room }
        ensures list { list_at self.new.nodes result ≡ top ∷ list_at self.old.nodes id }
        ensures fits { result ≤ length self.new.nodes }
        ensures grows { Grows self.old.nodes self.new.nodes }
        ensures room { self.old.room ≡ self.new.room + 1 }
    {
        let depth = self.depth(id) + 1;
        self.nodes.push_reserved(Node {
            below: id,
            top,
            depth,
        });
        self.nodes.len() as u32
    }

    /// Whether two lists are the same.
    #[tactic(auto, using(crate::proofs::KindLists::same_self))]
    pub fn same(&self, a: u32, b: u32) -> bool
        requires left { a ≤ length self.now.nodes }
        requires right { b ≤ length self.now.nodes }
        ensures { result ≡ same_kinds (list_at self.now.nodes a) (list_at self.now.nodes b) }
    {
        let mut a = a;
        let mut b = b;
        while a != b {
            match self.top(a) {
                None => return self.top(b).is_none(),
                Some((x, below)) => match self.top(b) {
                    None => return false,
                    Some((y, other)) => {
                        if x != y {
                            return false;
                        }
                        a = below;
                        b = other;
                    }
                },
            }
        }
        true
    }

    /// The list below, if this kind is on top.
    pub fn pop(&self, top: Operand, id: u32) -> Option<u32>
        requires { id ≤ length self.now.nodes }
        ensures list { maybe self.now.nodes result ≡ pop top (list_at self.now.nodes id) }
        ensures fits { MaybeFits self.now.nodes result }
    {
        match self.top(id) {
            None => None,
            Some((found, below)) => {
                if same_kind(top, found) {
                    Some(below)
                } else {
                    None
                }
            }
        }
    }

    /// The list below two kinds, if the first is on top and the second below it.
    pub fn pop_two(&self, top: Operand, next: Operand, id: u32) -> Option<u32>
        requires { id ≤ length self.now.nodes }
        ensures list { maybe self.now.nodes result ≡ and_pop next (pop top (list_at self.now.nodes id)) }
        ensures fits { MaybeFits self.now.nodes result }
    {
        match self.pop(top, id) {
            None => None,
            Some(below) => self.pop(next, below),
        }
    }

    /// The list with a kind on top, if there is a list.
    #[tactic(auto, using(crate::proofs::KindNotes::grows_same))]
    pub fn give(&mut self, id: Option<u32>, top: Operand) -> Option<u32>
        requires id { MaybeFits self.old.nodes id }
        requires room { 1 ≤ self.old.room }
        ensures list { Leaves self.old.nodes self.new.nodes (push top (maybe self.old.nodes id)) result }
        ensures room { self.old.room ≤ self.new.room + 1 }
    {
        match id {
            None => None,
            Some(id) => Some(self.push(id, top)),
        }
    }

    /// The list after a number replaces the number on top, or None if there is none.
    pub fn replace_one(&mut self, id: u32) -> Option<u32>
        requires id { id ≤ length self.old.nodes }
        requires room { 1 ≤ self.old.room }
        ensures list { Changes number_for_one self.old.nodes self.new.nodes id result }
        ensures room { self.old.room ≤ self.new.room + 1 }
    {
        let below = self.pop(Operand::Number, id);
        self.give(below, Operand::Number)
    }

    /// The list after a number replaces the two numbers on top, or None if they are not there.
    pub fn replace_two(&mut self, id: u32) -> Option<u32>
        requires id { id ≤ length self.old.nodes }
        requires room { 1 ≤ self.old.room }
        ensures list { Changes number_for_two self.old.nodes self.new.nodes id result }
        ensures room { self.old.room ≤ self.new.room + 1 }
    {
        let below = self.pop_two(Operand::Number, Operand::Number, id);
        self.give(below, Operand::Number)
    }

    /// The note at a place, if there is such a place: 0 for none, otherwise one more than the number
    /// of a list.
    #[tactic(auto, using(crate::proofs::KindNotes::noted_past, crate::proofs::KindNotes::noted_none, crate::proofs::KindNotes::noted_old, crate::proofs::KindNotes::noted_below))]
    fn note_at(&self, notes: &[u32], p: usize) -> Option<Option<u32>>
        requires { NotesFit self.now.nodes notes.now }
        ensures noted { slice_get (notes_of self.now.nodes notes.now) p ≡ maybe_noted self.now.nodes result }
        ensures fits { NotedFits self.now.nodes result }
    {
        if p >= notes.len() {
            return None;
        }
        let e = notes[p];
        if e == 0 {
            Some(None)
        } else {
            Some(Some(e - 1))
        }
    }

    /// The list at a place, if what falls through to it and what is noted there agree.
    #[tactic(auto, using(crate::proofs::KindLists::list_zero))]
    pub fn arrive(&self, notes: &[u32], here: Option<u32>, p: usize) -> Option<u32>
        requires notes { NotesFit self.now.nodes notes.now }
        requires here { MaybeFits self.now.nodes here }
        ensures list { maybe self.now.nodes result ≡ arrive (maybe self.now.nodes here) (notes_of self.now.nodes notes.now) p }
        ensures fits { MaybeFits self.now.nodes result }
    {
        match self.note_at(notes, p) {
            None => None,
            Some(None) => match here {
                None => Some(0),
                Some(id) => Some(id),
            },
            Some(Some(old)) => match here {
                None => Some(old),
                Some(id) => { if self.same(id, old) { Some(id) } else { None } }
            },
        }
    }

    /// Notes a list at a place. False if there is no such place, or if another list is noted
    /// there.
    #[tactic(auto, using(crate::proofs::KindNotes::notes_set, crate::proofs::KindNotes::fits_set))]
    pub fn note(&self, notes: &mut Vec<u32>, p: usize, id: u32) -> bool
        requires notes { NotesFit self.now.nodes notes.old.items }
        requires id { id ≤ length self.now.nodes }
        requires small { id < 2 ^ 32 - 1 }
        ensures noted { note (notes_of self.now.nodes notes.old.items) p (list_at self.now.nodes id) ≡ (if result then Some (notes_of self.now.nodes notes.new.items) else None) }
        ensures fits { NotesFit self.now.nodes notes.new.items }
        ensures len { vec_len notes.new ≡ vec_len notes.old }
    {
        match self.note_at(notes.as_slice(), p) {
            None => false,
            Some(None) => {
                put_note(notes, p, id + 1);
                true
            }
            Some(Some(old)) => self.same(old, id),
        }
    }
}

/// Whether two kinds are the same.
fn same_kind(a: Operand, b: Operand) -> bool
    ensures { result ≡ same_kind a b }
{
    match a {
        Operand::Number => match b {
            Operand::Number => true,
            Operand::Atom => false,
        },
        Operand::Atom => match b {
            Operand::Number => false,
            Operand::Atom => true,
        },
    }
}

/// Sets a note, if there is such a place.
pub fn put_note(notes: &mut Vec<u32>, p: usize, e: u32)
    ensures items { notes.new.items ≡ slice_set notes.old.items p e }
    ensures len { vec_len notes.new ≡ vec_len notes.old }
{
    if p < notes.len() {
        notes[p] = e;
    }
}
