//! The codes that this bench runs.

use feast_base::{Name, NoMemory};
use stack_code::Instr::*;
use stack_code::{Answer, Code, Instr, Operand, RawCode, RawFunction, verify};
use std::alloc::Global;

/// Which code.
#[derive(Clone, Copy, Debug, PartialEq, Eq)]
pub enum Which {
    /// Only the end.
    End,
    /// Ten instructions in a row, one of which swaps two sites.
    Row,
    /// A loop of eight instructions that runs 900 times.
    Loop,
    /// A loop of ten instructions that runs 400 times and calls a function each time.
    Calls,
}

/// A function without parameters, with one slot for a number.
fn function(
    alloc: Global,
    name: &[u8],
    first: u32,
    answer: Answer,
) -> Result<RawFunction, NoMemory> {
    let name = Name::new(alloc, name)?;
    match vec![in alloc; Operand::Number] {
        Ok(slots) => Ok(RawFunction::new(name, 0, first, 0, slots, answer)),
        Err(_) => Err(NoMemory),
    }
}

/// Code with these functions and instructions, for atoms of type 1. None if it is not valid.
fn code(
    alloc: Global,
    functions: Vec<RawFunction>,
    instrs: &[Instr],
) -> Result<Option<Code>, NoMemory> {
    match Vec::from_slice(alloc, instrs) {
        Ok(instrs) => verify(alloc, RawCode::new(1, functions, instrs)),
        Err(_) => Err(NoMemory),
    }
}

/// Code with one function, of these instructions.
fn alone(alloc: Global, instrs: &[Instr]) -> Result<Option<Code>, NoMemory> {
    let main = function(alloc, b"behave", 0, Answer::Nothing)?;
    match vec![in alloc; main] {
        Ok(functions) => code(alloc, functions, instrs),
        Err(_) => Err(NoMemory),
    }
}

/// Ten instructions in a row.
fn row(alloc: Global) -> Result<Option<Code>, NoMemory> {
    let instrs = [
        PushNum(0),
        PushNum(4),
        Swap,
        PushNum(3),
        PushNum(5),
        AddI,
        PushNum(7),
        MulI,
        Pop,
        ReturnVoid,
    ];
    alone(alloc, &instrs)
}

/// A loop of eight instructions that runs 900 times.
fn turns(alloc: Global) -> Result<Option<Code>, NoMemory> {
    let instrs = [
        PushNum(900),
        StoreLocal(0),
        LoadLocal(0),
        JumpFalse(10),
        LoadLocal(0),
        PushNum(1),
        SubI,
        StoreLocal(0),
        Turn,
        Jump(2),
        ReturnVoid,
    ];
    alone(alloc, &instrs)
}

/// A loop that runs 400 times and calls a function each time.
fn calls(alloc: Global) -> Result<Option<Code>, NoMemory> {
    let instrs = [
        PushNum(400),
        StoreLocal(0),
        LoadLocal(0),
        JumpFalse(10),
        LoadLocal(0),
        Call(1),
        SubI,
        StoreLocal(0),
        Turn,
        Jump(2),
        ReturnVoid,
        PushNum(1),
        Return,
    ];
    let main = function(alloc, b"behave", 0, Answer::Nothing)?;
    let one = function(alloc, b"one", 11, Answer::Number)?;
    match vec![in alloc; main, one] {
        Ok(functions) => code(alloc, functions, &instrs),
        Err(_) => Err(NoMemory),
    }
}

/// The code to run. None if it is not valid.
pub fn code_of(alloc: Global, which: Which) -> Result<Option<Code>, NoMemory> {
    match which {
        Which::End => alone(alloc, &[ReturnVoid]),
        Which::Row => row(alloc),
        Which::Loop => turns(alloc),
        Which::Calls => calls(alloc),
    }
}
