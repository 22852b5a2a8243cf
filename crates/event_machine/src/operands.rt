//! The operand stack of a function.

ghost use Rattle.std.specs.Prelude.{◌≡◌, ◌<◌, ◌≤◌, ◌+◌, [], ◌∷◌, ◌++◌, length, IfOk, MatchOption, take, drop, reverse, vec_len, vec_capacity};
ghost use Rattle.stack_code.specs.declared.limits.TheConstants.{MOST_OPERANDS};

use datum::Datum;
use feast_base::NoMemory;
use stack_code::MOST_OPERANDS;
use std::alloc::Global;
use std::marker::Model;

/// The most operands at a place, and one more that the instruction there may push.
const CAPACITY: usize = MOST_OPERANDS as usize + 1;

/// Memory for this many operands or slots. `NoMemory` if it is not available.
pub fn reserve(alloc: Global, count: usize) -> Result<Vec<Datum>, NoMemory>
    ensures none { IfOk result (λ v. v.items ≡ []) }
    ensures room { IfOk result (λ v. vec_capacity v ≡ count) }
{
    match Vec::with_capacity(alloc, count) {
        Ok(room) => Ok(room),
        Err(_) => Err(NoMemory),
    }
}

/// Appends operands to a vector that has room for them.
fn append(to: &mut Vec<Datum>, from: &[Datum])
    requires { vec_len to.old + length from.now ≤ vec_capacity to.old }
    ensures items { to.new.items ≡ to.old.items ++ from.now }
    ensures room { vec_capacity to.new ≡ vec_capacity to.old }
{
    for x in from {
        to.push_reserved(*x);
    }
}

/// The operands of a function. In contracts the topmost comes first.
#[derive(Drop)]
pub struct OperandStack {
    items: Vec<Datum>,
}

impl Model for OperandStack {
    ghost use Rattle.std.specs.Prelude.{◌+◌, ◌≤◌, List, reverse, vec_len, vec_capacity};
    ghost use Rattle.datum.specs.declared.Datum.{Datum};
    ghost use Rattle.stack_code.specs.declared.limits.TheConstants.{MOST_OPERANDS};

    ghost Value = { List Datum };

    ghost view = { λ p. reverse p.items.items };

    ghost invariant = { λ p. (vec_len p.items ≤ MOST_OPERANDS + 1) × (MOST_OPERANDS + 1 ≤ vec_capacity p.items) };
}

impl OperandStack {
    /// An empty stack with memory for all operands that there may be. `NoMemory` if it is not
    /// available.
    pub fn new(alloc: Global) -> Result<OperandStack, NoMemory>
        ensures { IfOk result (λ p. p ≡ []) }
    {
        let items = reserve(alloc, CAPACITY)?;
        Ok(OperandStack { items })
    }

    /// Pushes an operand.
    #[inline]
    pub fn push(&mut self, x: Datum)
        requires { length self.old < MOST_OPERANDS + 1 }
        ensures { self.new ≡ x ∷ self.old }
    {
        self.items.push_reserved(x);
    }

    /// Pops an operand, if there is one.
    #[inline]
    pub fn take(&mut self) -> Option<Datum>
        ensures { MatchOption result ((self.old ≡ []) × (self.new ≡ [])) (λ x. self.old ≡ x ∷ self.new) }
    {
        self.items.pop()
    }

    /// Removes all operands.
    pub fn clear(&mut self)
        ensures { self.new ≡ [] }
    {
        self.items.clear();
    }

    /// The number of operands.
    pub fn len(&self) -> usize
        ensures { result ≡ length self.now }
    {
        self.items.len()
    }

    /// Pops this many operands and appends them to a vector, the topmost last.
    pub fn hand_over(&mut self, count: usize, to: &mut Vec<Datum>)
        requires some { count ≤ length self.old }
        requires room { vec_len to.old + count ≤ vec_capacity to.old }
        ensures given { to.new.items ≡ to.old.items ++ reverse (take count self.old) }
        ensures left { self.new ≡ drop count self.old }
        ensures room { vec_capacity to.new ≡ vec_capacity to.old }
    {
        let from = self.items.len() - count;
        append(to, &self.items[from..]);
        self.items.truncate(from);
    }
}
