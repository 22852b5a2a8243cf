//! What is read of a code, and codes that no file can have.

use crate::acting::code;
use stack_code::Instr::*;
use stack_code::{Answer, Code, Instr, Operand, RawFunction, verify};
use std::alloc::Global;
use std::test::Fail;

/// The instructions of a valid code.
const VALID: [Instr; 4] = [PushNum(0), PushNum(4), Swap, ReturnVoid];

#[test]
fn a_code_has_what_it_is_made_of(rt: HostRuntime) -> Result<(), Fail> {
    let raw = code(rt.alloc(), &VALID)?;
    assert!(rt; raw.kind() == 1);
    assert!(rt; raw.instrs().len() == 4);
    assert!(rt; raw.functions().len() == 1);
    Ok(())
}

/// The code of these instructions, which `verify` gives.
fn valid(alloc: Global) -> Result<Code, Fail> {
    match verify(alloc, code(alloc, &VALID)?)? {
        None => Err(Fail::from("valid code was refused")),
        Some(code) => Ok(code),
    }
}

#[test]
fn verify_gives_the_same_code_where_it_is_valid(rt: HostRuntime) -> Result<(), Fail> {
    let code = valid(rt.alloc())?;
    assert!(rt; matches!(code.instrs(), [PushNum(0), PushNum(4), Swap, ReturnVoid]));
    assert!(rt; code.kind() == 1);
    assert!(rt; code.len() == 4);
    Ok(())
}

/// Whether a function is the one of these instructions.
fn is_behave(main: &RawFunction) -> bool {
    main.name().bytes() == b"behave".as_slice()
        && main.base() == 0
        && main.first() == 0
        && main.params() == 0
        && matches!(main.slots(), [Operand::Number, Operand::Atom])
        && matches!(main.answer(), Answer::Nothing)
}

#[test]
fn verify_gives_the_same_function_where_it_is_valid(rt: HostRuntime) -> Result<(), Fail> {
    let code = valid(rt.alloc())?;
    assert!(rt; code.functions().len() == 1);
    assert!(rt; is_behave(&code.functions()[0]));
    Ok(())
}

/// Instructions of one function that no code file can have and that are not valid, and why.
const NOT_VALID: [(&str, &[Instr]); 4] = [
    ("no instruction", &[]),
    (
        "an operand above the greatest",
        &[PushNum(18_446_744_073_709_551_616), Pop, ReturnVoid],
    ),
    (
        "an operand below the least",
        &[PushNum(-9_223_372_036_854_775_809), Pop, ReturnVoid],
    ),
    (
        "bits of too great a width",
        &[PushNum(1), NotW(65), Pop, ReturnVoid],
    ),
];

#[test]
fn verify_goes_by_the_rule(rt: HostRuntime) -> Result<(), Fail> {
    let alloc = rt.alloc();
    for (shows, instrs) in NOT_VALID {
        assert!(rt; verify(alloc, code(alloc, instrs)?)?.is_none(), "{shows}");
    }
    Ok(())
}
