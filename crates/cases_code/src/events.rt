//! Small programs in stack code, each with what it leaves, and numbers of steps. The values were
//! worked out independently of the machine.

use crate::acting::{act, centred, code, ends, fails};
use bit_field::Atom;
use event_machine::{CountLedger, Ended, NoLedger, Steps};
use feast_base::Name;
use sat_math::Kind;
use stack_code::Instr::*;
use stack_code::{Answer, Instr, Operand, RawCode, RawFunction};
use std::alloc::Global;
use std::test::Fail;
use window_sites::Window;

/// Two ways, of which the first number chooses one.
const WAYS: [Instr; 7] = [
    PushNum(0),
    JumpFalse(4),
    PushNum(1),
    Jump(5),
    PushNum(2),
    StoreField(0, 64, Kind::Bits),
    ReturnVoid,
];

/// The state of the centre and the steps after the way that a number chooses.
fn chosen(alloc: Global, number: i128) -> Result<(u128, u64), Fail> {
    let mut ways = WAYS;
    ways[0] = PushNum(number);
    let mut window = centred();
    match act(alloc, code(alloc, &ways)?, &mut window)? {
        None => Err(Fail::from("not valid")),
        Some((_, steps)) => Ok((window.get(0).state(), steps)),
    }
}

#[test]
fn zero_jumps_and_another_number_goes_on(rt: HostRuntime) -> Result<(), Fail> {
    assert!(rt; chosen(rt.alloc(), 0)? == (256, 5));
    assert!(rt; chosen(rt.alloc(), -3)? == (128, 6));
    Ok(())
}

const MOVES: [Instr; 4] = [PushNum(0), PushNum(4), Swap, ReturnVoid];

#[test]
fn a_swap_moves_the_centre(rt: HostRuntime) -> Result<(), Fail> {
    let mut moved = Window::empty();
    moved.put(4, Atom::new(1, 0));
    assert!(rt; ends(rt.alloc(), &MOVES, &moved)?);
    Ok(())
}

const STORES: [Instr; 4] = [PushNum(7), PushAtom(9), StoreSite, ReturnVoid];

#[test]
fn a_store_changes_its_site(rt: HostRuntime) -> Result<(), Fail> {
    let mut stored = centred();
    stored.put(7, Atom::new(9, 0));
    assert!(rt; ends(rt.alloc(), &STORES, &stored)?);
    Ok(())
}

/// Instructions that fail, with the number of the failure and the steps up to it.
const FAILURES: [(&[Instr], u8, u64); 11] = [
    (&[Turn, Jump(0)], 1, 2_001),
    (
        &[PushNum(1), JumpFalse(4), Turn, Jump(0), ReturnVoid],
        1,
        4_003,
    ),
    (&[Call(0), ReturnVoid], 2, 17),
    (&[PushNum(1), PushNum(0), DivI, Pop, ReturnVoid], 3, 3),
    (&[PushNum(1), PushNum(0), RemV, Pop, ReturnVoid], 3, 3),
    (&[PushNum(41), LoadSite, Pop, ReturnVoid], 4, 2),
    (&[PushNum(0), PushNum(-1), Swap, ReturnVoid], 4, 3),
    (&[PushNum(0), RandCreate, Pop, ReturnVoid], 5, 2),
    (
        &[PushNum(0), PushNum(1), Swap, LoadSelf, Pop, ReturnVoid],
        6,
        4,
    ),
    (
        &[
            PushNum(4),
            LoadFieldAt(0, 3, Kind::Bits, 4),
            Pop,
            ReturnVoid,
        ],
        7,
        2,
    ),
    (
        &[
            PushNum(4),
            PushNum(1),
            StorePartAt(1, 0, 3, Kind::Bits, 4),
            ReturnVoid,
        ],
        7,
        3,
    ),
];

#[test]
fn failures_have_their_numbers_and_steps(rt: HostRuntime) -> Result<(), Fail> {
    for (instrs, number, steps) in FAILURES {
        assert!(rt;
            fails(rt.alloc(), instrs, number, steps)?,
            "failure {number} after {steps} steps"
        );
    }
    Ok(())
}

/// The instructions of a function without parameters, and from 6 on those of one that gives the
/// difference of its two parameters.
const CALLING: [Instr; 10] = [
    PushNum(100),
    PushNum(9),
    PushNum(4),
    Call(1),
    StoreField(0, 64, Kind::Bits),
    ReturnVoid,
    LoadLocal(0),
    LoadLocal(1),
    SubI,
    Return,
];

/// The first of these functions, which has no slots.
fn main(alloc: Global) -> Result<RawFunction, Fail> {
    let name = Name::new(alloc, b"behave")?;
    Ok(RawFunction::new(name, 0, 0, 0, Vec::new(alloc), Answer::Nothing))
}

/// The second.
fn sub(alloc: Global) -> Result<RawFunction, Fail> {
    let slots = vec![in alloc; Operand::Number, Operand::Number, Operand::Number]?;
    let name = Name::new(alloc, b"sub")?;
    Ok(RawFunction::new(name, 0, 6, 2, slots, Answer::Number))
}

/// Both functions. `end` stands where the first ends.
fn calling(alloc: Global, end: Instr) -> Result<RawCode, Fail> {
    let mut instrs = CALLING;
    instrs[5] = end;
    let instrs = Vec::from_slice(alloc, &instrs)?;
    let mut functions = Vec::new(alloc);
    functions.push(main(alloc)?)?;
    functions.push(sub(alloc)?)?;
    Ok(RawCode::new(1, functions, instrs))
}

#[test]
fn a_jump_out_of_its_function_is_not_valid(rt: HostRuntime) -> Result<(), Fail> {
    let outward = act(rt.alloc(), calling(rt.alloc(), Jump(9))?, &mut centred())?;
    assert!(rt; outward.is_none(), "a jump out of the function");
    Ok(())
}

#[test]
fn calls_take_their_arguments_in_order(rt: HostRuntime) -> Result<(), Fail> {
    let mut window = centred();
    let ended = act(rt.alloc(), calling(rt.alloc(), ReturnVoid)?, &mut window)?;
    assert!(rt; ended == Some((Ended::Done, 10)));
    assert!(rt; window.get(0) == Atom::new(1, 5 * 128));
    Ok(())
}

#[test]
fn each_step_is_noted_once(rt: HostRuntime) {
    let mut steps = Steps::new(CountLedger::new());
    steps.tick();
    steps.tick();
    assert!(rt; steps.into_ledger().count() == 2);
    let mut steps = Steps::new(NoLedger);
    steps.tick();
    steps.into_ledger();
}
