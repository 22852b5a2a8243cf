//! Functions and the code of an element.

ghost use Rattle.std.specs.Prelude.{◌≡◌, ◌≤◌, ℕ, length, IsTrue};
ghost use Rattle.window_sites.specs.Window.{WindowValue};
ghost use Rattle.stack_code.specs.Laws.{RunsWell, JumpsStay};
ghost use Rattle.stack_code.specs.Machine.{FunctionValue, CodeValue};
ghost use Rattle.stack_code.specs.Valid.{valid};
ghost use Rattle.bit_field.specs.declared.TheConstants.{STATE_BITS};

use crate::instr::{Answer, Instr, Operand};
use feast_base::Name;
use std::marker::Model;

/// A function: its name, the first state bit of the class that it works on, the index of its
/// first instruction, the number of its parameters, its slots, and what it returns.
#[derive(Drop)]
pub struct RawFunction {
    name: Name,
    base: u32,
    first: u32,
    params: u32,
    slots: Vec<Operand>,
    answer: Answer,
}

impl Model for RawFunction {
    ghost use Rattle.std.specs.Prelude.{◌≤◌};
    ghost use Rattle.stack_code.specs.Machine.{FunctionValue};
    ghost use Rattle.bit_field.specs.declared.TheConstants.{STATE_BITS};

    ghost Value = { FunctionValue };

    ghost view = { λ f. record { name = f.name; base = f.base; first = f.first; params = f.params; slots = f.slots.items; answer = f.answer } };

    ghost invariant = { λ f. f.base ≤ STATE_BITS };
}

impl RawFunction {
    /// A function with these parts. The base is at most 71.
    pub fn new(
        name: Name,
        base: u32,
        first: u32,
        params: u32,
        slots: Vec<Operand>,
        answer: Answer,
    ) -> RawFunction
        requires { base ≤ STATE_BITS }
        ensures { result ≡ record { name = name; base = base; first = first; params = params; slots = slots.items; answer = answer } }
    {
        RawFunction {
            name,
            base,
            first,
            params,
            slots,
            answer,
        }
    }

    /// The name.
    pub fn name(&self) -> &Name
        ensures { result.now ≡ self.now.name }
    {
        &self.name
    }

    /// The first state bit of the class that the function works on, at most 71.
    pub fn base(&self) -> u32
        ensures value { result ≡ self.now.base }
        ensures bound { result ≤ STATE_BITS }
    {
        self.base
    }

    /// The index of the first instruction.
    #[inline(always)]
    pub fn first(&self) -> u32
        ensures { result ≡ self.now.first }
    {
        self.first
    }

    /// The number of parameters. They are the first slots.
    #[inline(always)]
    pub fn params(&self) -> u32
        ensures { result ≡ self.now.params }
    {
        self.params
    }

    /// The kind of each slot.
    #[inline(always)]
    pub fn slots(&self) -> &[Operand]
        ensures { result.now ≡ self.now.slots }
    {
        self.slots.as_slice()
    }

    /// What the function returns.
    #[inline(always)]
    pub fn answer(&self) -> Answer
        ensures { result ≡ self.now.answer }
    {
        self.answer
    }
}

/// The code of an element, valid or not: its type number, its functions and all their
/// instructions.
#[derive(Drop)]
pub struct RawCode {
    kind: u16,
    functions: Vec<RawFunction>,
    instrs: Vec<Instr>,
}

impl Model for RawCode {
    ghost use Rattle.stack_code.specs.Machine.{CodeValue};

    ghost Value = { CodeValue };

    ghost view = { λ c. record { kind = c.kind; functions = c.functions.items; instrs = c.instrs.items } };
}

impl RawCode {
    /// Code with these parts.
    pub fn new(kind: u16, functions: Vec<RawFunction>, instrs: Vec<Instr>) -> RawCode
        ensures { result ≡ record { kind = kind; functions = functions.items; instrs = instrs.items } }
    {
        RawCode {
            kind,
            functions,
            instrs,
        }
    }

    /// The type number of the element.
    #[inline(always)]
    pub fn kind(&self) -> u16
        ensures { result ≡ self.now.kind }
    {
        self.kind
    }

    /// The functions. An event runs the first.
    #[inline(always)]
    pub fn functions(&self) -> &[RawFunction]
        ensures { result.now ≡ self.now.functions }
    {
        self.functions.as_slice()
    }

    /// The instructions of all functions, one function after another.
    #[inline(always)]
    pub fn instrs(&self) -> &[Instr]
        ensures { result.now ≡ self.now.instrs }
    {
        self.instrs.as_slice()
    }
}

/// Valid code.
#[derive(Drop)]
pub struct Code {
    raw: RawCode,
}

impl Model for Code {
    ghost use Rattle.std.specs.Prelude.{IsTrue};
    ghost use Rattle.stack_code.specs.Machine.{CodeValue};
    ghost use Rattle.stack_code.specs.Valid.{valid};

    ghost Value = { CodeValue };

    ghost view = { λ c. c.raw };

    ghost invariant = { λ c. IsTrue (valid c.raw) };
}

impl Code {
    /// Wraps code that is valid.
    pub(crate) fn new(raw: RawCode) -> Code
        requires { IsTrue (valid raw) }
        ensures { result ≡ raw }
    {
        Code { raw }
    }

    /// The code itself, without the promise that it is valid.
    pub(crate) fn raw(&self) -> &RawCode
        ensures { result.now ≡ self.now }
    {
        &self.raw
    }

    /// States what is true of valid code. A run ends or fails after at most 1,001 times as many
    /// instructions as the code has. It never misses an operand, a slot, an instruction or a
    /// function, and no jump leaves its function. The call does nothing.
    #[inline(always)]
    pub fn laws(&self)
        ensures valid { IsTrue (valid self.now) }
        ensures runs { (w : WindowValue) (seed : ℕ) → RunsWell self.now w seed }
        ensures jumps { JumpsStay self.now }
    {
        // Reading the field makes known what holds of all valid code, from which the laws follow.
        let _raw = &self.raw;
    }

    /// The number of instructions.
    #[inline(always)]
    pub fn len(&self) -> usize
        ensures { result ≡ length self.now.instrs }
    {
        self.raw.instrs.len()
    }

    /// The type number of the element.
    #[inline(always)]
    pub fn kind(&self) -> u16
        ensures { result ≡ self.now.kind }
    {
        self.raw.kind
    }

    /// The functions. An event runs the first.
    #[inline(always)]
    pub fn functions(&self) -> &[RawFunction]
        ensures { result.now ≡ self.now.functions }
    {
        self.raw.functions.as_slice()
    }

    /// The instructions of all functions, one function after another.
    #[inline(always)]
    pub fn instrs(&self) -> &[Instr]
        ensures { result.now ≡ self.now.instrs }
    {
        self.raw.instrs.as_slice()
    }
}
