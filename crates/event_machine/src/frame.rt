//! The frames of waiting functions, and how a function begins and returns.

ghost use Rattle.std.specs.Prelude.{◌≡◌, ◌≤◌, ◌+◌, ◌++◌, [], length, map, vec_len, vec_capacity};
ghost use Rattle.stack_code.specs.Machine.{callee_held, caller_frame, fill, first_held};
ghost use Rattle.stack_code.specs.declared.limits.TheConstants.{MOST_OPERANDS, MOST_SLOTS};

use crate::activation::Activation;
use crate::operands::{OperandStack, reserve};
use bit_field::Atom;
use datum::{Datum, Number};
use draw_stream::EventDraws;
use feast_base::NoMemory;
use stack_code::{MOST_SLOTS, Operand, RawFunction};
use std::alloc::Global;
use std::marker::Model;
use std::mem;
use window_sites::Window;

/// The frame of a function that waits for the one it called: where it continues, its operands and
/// its slots.
#[derive(Drop)]
pub struct Frame {
    pub(crate) place: usize,
    pub(crate) operands: OperandStack,
    pub(crate) slots: Vec<Datum>,
}

impl Model for Frame {
    ghost use Rattle.std.specs.Prelude.{◌≤◌, length, vec_capacity};
    ghost use Rattle.stack_code.specs.Machine.{Frame as FrameValue};
    ghost use Rattle.stack_code.specs.declared.limits.TheConstants.{MOST_OPERANDS, MOST_SLOTS};

    ghost Value = { FrameValue };

    ghost view = { λ f. record { place = f.place; stack = f.operands; slots = f.slots.items } };

    ghost invariant = { λ f. (length f.operands ≤ MOST_OPERANDS) × (MOST_SLOTS ≤ vec_capacity f.slots) };
}

impl Frame {
    /// A frame with all the memory that a function needs. `NoMemory` if it is not available.
    pub fn new(alloc: Global) -> Result<Frame, NoMemory> {
        let operands = OperandStack::new(alloc)?;
        let slots = reserve(alloc, MOST_SLOTS)?;
        Ok(Frame {
            place: 0,
            operands,
            slots,
        })
    }
}

/// The first value of a slot of this kind: 0 or the empty atom.
fn first_value(kind: Operand) -> Datum
    ensures { result ≡ fill kind }
{
    match kind {
        Operand::Number => Datum::Number(Number::new(0)),
        Operand::Atom => Datum::Atom(Atom::new(0, 0)),
    }
}

/// Appends the first values of slots of these kinds.
fn fill(slots: &mut Vec<Datum>, kinds: &[Operand])
    requires { vec_len slots.old + length kinds.now ≤ vec_capacity slots.old }
    ensures items { slots.new.items ≡ slots.old.items ++ map fill kinds.now }
    ensures room { vec_capacity slots.new ≡ vec_capacity slots.old }
{
    for kind in kinds {
        slots.push_reserved(first_value(*kind));
    }
}

impl Activation {
    /// Begins a function. Its arguments are the topmost operands. The caller waits in the frame and
    /// will continue at `place`.
    #[tactic(auto, using(crate::proofs::Slots::fresh_filled))]
    pub fn pass(&mut self, function: &RawFunction, frame: &mut Frame, place: usize)
        requires args { function.now.params ≤ length self.old.stack }
        requires slots { function.now.params ≤ length function.now.slots }
        requires few { length function.now.slots ≤ MOST_SLOTS }
        requires room { length self.old.stack ≤ MOST_OPERANDS }
        ensures begun { self.new ≡ callee_held function.now self.old }
        ensures waits { frame.new ≡ caller_frame function.now place self.old }
    {
        let params = function.params() as usize;
        frame.operands.clear();
        frame.slots.clear();
        self.operands.hand_over(params, &mut frame.slots);
        fill(&mut frame.slots, &function.slots()[params..]);
        mem::swap(&mut self.operands, &mut frame.operands);
        mem::swap(&mut self.slots, &mut frame.slots);
        frame.place = place;
    }

    /// Continues the function that waits in the frame.
    pub fn resume(&mut self, frame: &mut Frame)
        requires { length self.old.stack ≤ MOST_OPERANDS }
        ensures back { self.new ≡ record self.old { stack = frame.old.stack; slots = frame.old.slots } }
        ensures room { length self.new.stack ≤ MOST_OPERANDS }
    {
        mem::swap(&mut self.operands, &mut frame.operands);
        mem::swap(&mut self.slots, &mut frame.slots);
    }

    /// Begins an event with slots of these kinds.
    pub fn begin(&mut self, slots: &[Operand], window: &Window, seed: u64)
        requires { length slots.now ≤ MOST_SLOTS }
        ensures { self.new ≡ first_held slots.now window.now seed }
    {
        self.operands.clear();
        self.slots.clear();
        fill(&mut self.slots, slots);
        self.window = *window;
        self.draws = EventDraws::new(seed);
    }
}

/// Moves all waiting frames to the spare ones.
pub fn recover(waiting: &mut Vec<Frame>, spare: &mut Vec<Frame>)
    requires { vec_len waiting.old + vec_len spare.old ≤ vec_capacity spare.old }
    ensures none { waiting.new.items ≡ [] }
    ensures sum { vec_len spare.new ≡ vec_len waiting.old + vec_len spare.old }
    ensures waiting_room { vec_capacity waiting.new ≡ vec_capacity waiting.old }
    ensures spare_room { vec_capacity spare.new ≡ vec_capacity spare.old }
{
    while let Some(frame) = waiting.pop() {
        spare.push_reserved(frame);
    }
}
