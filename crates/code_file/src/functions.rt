//! Reading functions.
ghost use Rattle.std.specs.Prelude.{◌≡◌};
ghost use Rattle.code_file.specs.Reading.{Gives, answer_at, answer_of, function_at, functions_at, operand_of, slot_at, slots_at, times};

use crate::halt::Halt;
use crate::names::{NameForm, name};
use crate::numbers::number;
use bit_field::STATE_BITS;
use feast_base::{MOST_PARAMS, Name};
use stack_code::{Answer, MOST_INSTRS, MOST_SLOTS, Operand, RawFunction};
use std::alloc::Global;

/// The kind of slot that a byte stands for.
fn operand_of(code: u64) -> Operand
    ensures { result ≡ operand_of code }
{
    if code == 0 {
        Operand::Number
    } else {
        Operand::Atom
    }
}

/// The result of a function that a byte stands for.
fn answer_of(code: u64) -> Answer
    ensures { result ≡ answer_of code }
{
    if code == 0 {
        Answer::Nothing
    } else if code == 1 {
        Answer::Number
    } else {
        Answer::Atom
    }
}

/// A slot, and the remaining bytes.
#[tactic(auto, unfolding(crate::specs::Reading::slot_at))]
fn slot(bytes: &[u8]) -> Result<(Operand, &[u8]), Halt>
    ensures { Gives (λ x. (x.0, x.1.now)) result (slot_at bytes.now) }
{
    let (code, rest) = number(bytes, 1, 0, 1)?;
    Ok((operand_of(code), rest))
}

/// The result of a function, and the remaining bytes.
#[tactic(auto, unfolding(crate::specs::Reading::answer_at))]
fn answer(bytes: &[u8]) -> Result<(Answer, &[u8]), Halt>
    ensures { Gives (λ x. (x.0, x.1.now)) result (answer_at bytes.now) }
{
    let (code, rest) = number(bytes, 1, 0, 2)?;
    Ok((answer_of(code), rest))
}

/// This many slots, and the remaining bytes.
fn slots_in(alloc: Global, count: u64, bytes: &[u8]) -> Result<(Vec<Operand>, &[u8]), Halt>
    ensures { Gives (λ x. (x.0.items, x.1.now)) result (times slot_at count bytes.now) }
{
    let mut slots = Vec::new(alloc);
    let mut rest = bytes;
    for _ in 0..count {
        let (slot, after) = slot(rest)?;
        slots.push(slot)?;
        rest = after;
    }
    Ok((slots, rest))
}

/// A counted list of slots, and the remaining bytes.
#[tactic(auto, unfolding(crate::specs::Reading::slots_at))]
fn slots(alloc: Global, bytes: &[u8]) -> Result<(Vec<Operand>, &[u8]), Halt>
    ensures { Gives (λ x. (x.0.items, x.1.now)) result (slots_at bytes.now) }
{
    let (count, rest) = number(bytes, 1, 0, MOST_SLOTS as u64)?;
    slots_in(alloc, count, rest)
}

/// A function, and the remaining bytes.
#[tactic(auto, unfolding(crate::specs::Reading::function_at))]
fn function(alloc: Global, bytes: &[u8]) -> Result<(RawFunction, &[u8]), Halt>
    ensures { Gives (λ x. (x.0, x.1.now)) result (function_at bytes.now) }
{
    let (name, rest) = name(NameForm::OfFunction, bytes)?;
    let (base, rest) = number(rest, 1, 0, STATE_BITS as u64)?;
    let (first, rest) = number(rest, 4, 0, u32::MAX as u64)?;
    let (params, rest) = number(rest, 1, 0, MOST_PARAMS as u64)?;
    let (answer, rest) = answer(rest)?;
    let (slots, rest) = slots(alloc, rest)?;
    let name = Name::new(alloc, name)?;
    let function = RawFunction::new(
        name,
        base as u32,
        first as u32,
        params as u32,
        slots,
        answer,
    );
    Ok((function, rest))
}

/// This many functions, and the remaining bytes. Memory is allocated as they are read.
fn functions_in(alloc: Global, count: u64, bytes: &[u8]) -> Result<(Vec<RawFunction>, &[u8]), Halt>
    ensures { Gives (λ x. (x.0.items, x.1.now)) result (times function_at count bytes.now) }
{
    let mut functions = Vec::new(alloc);
    let mut rest = bytes;
    for _ in 0..count {
        let (function, after) = function(alloc, rest)?;
        functions.push(function)?;
        rest = after;
    }
    Ok((functions, rest))
}

/// A counted list of functions, and the remaining bytes.
#[tactic(auto, unfolding(crate::specs::Reading::functions_at))]
pub fn functions(alloc: Global, bytes: &[u8]) -> Result<(Vec<RawFunction>, &[u8]), Halt>
    ensures { Gives (λ x. (x.0.items, x.1.now)) result (functions_at bytes.now) }
{
    let (count, rest) = number(bytes, 4, 1, u64::from(MOST_INSTRS))?;
    functions_in(alloc, count, rest)
}
