//! Small programs in stack code as events.

use bit_field::Atom;
use event_machine::{CountLedger, Ended, Machine, Steps};
use feast_base::{Name, NoMemory};
use stack_code::{Answer, Instr, Operand, RawCode, RawFunction, verify};
use std::alloc::Global;
use std::test::Fail;
use window_sites::Window;

/// A window of live sites, with an atom of type 1 and state 0 at the centre.
pub fn centred() -> Window {
    let mut window = Window::empty();
    window.put(0, Atom::new(1, 0));
    window
}

/// Makes an event of a code on a window. Answers how it ended and how many steps were noted, or None if
/// the code is not valid.
pub fn act(
    alloc: Global,
    raw: RawCode,
    window: &mut Window,
) -> Result<Option<(Ended, u64)>, NoMemory> {
    let Some(code) = verify(alloc, raw)? else {
        return Ok(None);
    };
    let mut machine = Machine::new(alloc)?;
    let mut steps = Steps::new(CountLedger::new());
    let ended = machine.act(&code, window, 0, &mut steps);
    Ok(Some((ended, steps.into_ledger().count())))
}

/// The code of one function, whose slots are a number and an atom.
pub fn code(alloc: Global, instrs: &[Instr]) -> Result<RawCode, Fail> {
    let slots = vec![in alloc; Operand::Number, Operand::Atom]?;
    let name = Name::new(alloc, b"behave")?;
    let main = RawFunction::new(name, 0, 0, 0, slots, Answer::Nothing);
    Ok(RawCode::new(1, vec![in alloc; main]?, Vec::from_slice(alloc, instrs)?))
}

/// Whether these instructions come to the end and leave this window, one step each.
pub fn ends(alloc: Global, instrs: &[Instr], expected: &Window) -> Result<bool, Fail> {
    let mut window = centred();
    let ended = act(alloc, code(alloc, instrs)?, &mut window)?;
    Ok(ended == Some((Ended::Done, instrs.len() as u64)) && window == *expected)
}

/// Whether these instructions fail so, after so many steps, and leave the centre empty and site 1
/// as it was.
pub fn fails(alloc: Global, instrs: &[Instr], number: u8, steps: u64) -> Result<bool, Fail> {
    let mut window = centred();
    window.put(1, Atom::new(2, 5));
    let mut expected = window;
    expected.put(0, Atom::new(0, 0));
    let ended = act(alloc, code(alloc, instrs)?, &mut window)?;
    Ok(ended == Some((Ended::Failed(number), steps)) && window == expected)
}
