//! The activation of the running function.

ghost use Rattle.std.specs.Prelude.{◌≡◌, ◌<◌, ◌≤◌, ◌+◌, ℤ, List, [], ◌∷◌, length, IfSome, MatchOption, slice_get, slice_set};
ghost use Rattle.bit_field.specs.Atom.{AtomValue};
ghost use Rattle.stack_code.specs.Machine.{Held, State, on_test, Led, on_number, on_numbers, on_top, on_atom, own_of, atom_in};
ghost use Rattle.datum.specs.declared.Datum.{Datum};
ghost use Rattle.datum.specs.declared.Datum.TheVariants.{Number as ANumber, Atom as AnAtom};
ghost use Rattle.event_machine.specs.Works.{with_any, with_one, with_lead, with_two, with_atom};
ghost use Rattle.stack_code.specs.declared.limits.TheConstants.{MOST_OPERANDS};

use crate::operands::OperandStack;
use bit_field::Atom;
use datum::{Datum, Number};
use draw_stream::EventDraws;
use std::marker::Model;
use window_sites::Window;

/// The activation of the running function: its operands and slots, the event's copy of the window,
/// and the generator of the event's random words.
#[derive(Drop)]
pub struct Activation {
    pub(crate) operands: OperandStack,
    pub(crate) slots: Vec<Datum>,
    pub(crate) window: Window,
    pub(crate) draws: EventDraws,
}

impl Model for Activation {
    ghost use Rattle.std.specs.Prelude.{◌≤◌, vec_capacity};
    ghost use Rattle.stack_code.specs.Machine.{Held};
    ghost use Rattle.stack_code.specs.declared.limits.TheConstants.{MOST_SLOTS};

    ghost Value = { Held };

    ghost view = { λ a. record { stack = a.operands; slots = a.slots.items; window = a.window; words = a.draws } };

    ghost invariant = { λ a. MOST_SLOTS ≤ vec_capacity a.slots };
}

impl Activation {
    /// Pushes an operand.
    #[inline]
    pub fn push(&mut self, x: Datum)
        requires { length self.old.stack < MOST_OPERANDS + 1 }
        ensures { self.new ≡ record self.old { stack = x ∷ self.old.stack } }
    {
        self.operands.push(x);
    }

    /// Pops an operand, if there is one.
    #[inline]
    pub fn any(&mut self) -> Option<Datum>
        ensures takes { (go : Datum → List Datum → Led Held) → on_top self.old.stack go ≡ with_any result self.new.stack go }
        ensures found { MatchOption result (self.old.stack ≡ []) (λ x. self.old.stack ≡ x ∷ self.new.stack) }
        ensures kept { self.new ≡ record self.old { stack = self.new.stack } }
        ensures room { length self.new.stack ≤ length self.old.stack }
    {
        self.operands.take()
    }

    /// Pops an operand, if it is a number.
    #[inline]
    pub fn number(&mut self) -> Option<Number>
        ensures takes { (go : ℤ → List Datum → Led Held) → on_number self.old.stack go ≡ with_one result self.new.stack go }
        ensures leads { (go : ℤ → List Datum → Led State) → on_test self.old.stack go ≡ with_lead result self.new.stack go }
        ensures kept { self.new ≡ record self.old { stack = self.new.stack } }
        ensures room { IfSome result (λ v. length self.new.stack + 1 ≡ length self.old.stack) }
    {
        match self.operands.take()? {
            Datum::Number(v) => Some(v),
            Datum::Atom(_) => None,
        }
    }

    /// Pops an operand, if it is an atom.
    #[inline]
    pub fn atom(&mut self) -> Option<Atom>
        ensures takes { (go : AtomValue → List Datum → Led Held) → on_atom self.old.stack go ≡ with_atom result self.new.stack go }
        ensures kept { self.new ≡ record self.old { stack = self.new.stack } }
        ensures room { IfSome result (λ v. length self.new.stack + 1 ≡ length self.old.stack) }
    {
        match self.operands.take()? {
            Datum::Number(_) => None,
            Datum::Atom(a) => Some(a),
        }
    }

    /// Pops two operands, if they are numbers. The second one was on top.
    #[inline]
    pub fn two(&mut self) -> Option<(Number, Number)>
        ensures takes { (go : ℤ → ℤ → List Datum → Led Held) → on_numbers self.old.stack go ≡ with_two result self.new.stack go }
        ensures kept { self.new ≡ record self.old { stack = self.new.stack } }
        ensures room { IfSome result (λ v. length self.new.stack + 2 ≡ length self.old.stack) }
    {
        let b = self.number()?;
        let a = self.number()?;
        Some((a, b))
    }

    /// The atom at the centre, if it is of the acting type.
    #[inline]
    pub fn own(&self, kind: u16) -> Option<Atom>
        ensures { result ≡ own_of kind self.now.window }
    {
        let atom = self.window.get(0);
        if atom.kind() == kind {
            Some(atom)
        } else {
            None
        }
    }

    /// The value of a slot, if there is such a slot.
    #[inline]
    pub fn slot(&self, s: u8) -> Option<Datum>
        ensures { result ≡ slice_get self.now.slots s }
    {
        match self.slots.get(s as usize) {
            Some(x) => Some(*x),
            None => None,
        }
    }

    /// The atom in a slot, if the slot holds one.
    #[inline]
    pub fn slot_atom(&self, s: u8) -> Option<Atom>
        ensures { result ≡ atom_in (slice_get self.now.slots s) }
    {
        match self.slot(s)? {
            Datum::Number(_) => None,
            Datum::Atom(a) => Some(a),
        }
    }

    /// Sets a slot, if there is such a slot.
    #[inline]
    pub fn set_slot(&mut self, s: u8, x: Datum)
        ensures { self.new ≡ record self.old { slots = slice_set self.old.slots s x } }
    {
        if (s as usize) < self.slots.len() {
            self.slots[s as usize] = x;
        }
    }
}
