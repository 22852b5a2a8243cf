//! A bench of the machine: many events of some codes, each on a fresh window.

use crate::codes::{Which, code_of};
use bit_field::Atom;
use event_machine::{CountLedger, Machine, NoLedger, Steps};
use stack_code::Code;
use std::alloc::Global;
use std::io;
use std::rt::Clock;
use std::time::Instant;
use window_sites::Window;

/// The number of events of each code.
const EVENTS: u64 = 2_000;

/// The number of events that are timed together.
const PART: u64 = 100;

/// The codes and their names.
const CODES: [(&str, Which); 4] = [
    ("end", Which::End),
    ("row", Which::Row),
    ("loop", Which::Loop),
    ("calls", Which::Calls),
];

/// A window of live sites that is empty but for an atom of type 1 at the centre.
fn fresh() -> Window {
    let mut window = Window::empty();
    window.put(0, Atom::new(1, 0));
    window
}

/// Makes events on one window after another, as a behaviour does. It sums what they leave at the
/// eastern site, so that no event can be optimised away.
fn make(machine: &mut Machine, code: &Code, events: u64) -> u64 {
    let start = fresh();
    let mut sum = 0u64;
    for seed in 0..events {
        let mut window = start;
        let mut steps = Steps::new(NoLedger);
        let _ended = machine.act(code, &mut window, seed, &mut steps);
        sum = sum.wrapping_add(u64::from(window.get(4).kind()));
    }
    sum
}

/// The steps of one event.
fn steps_of(machine: &mut Machine, code: &Code) -> u64 {
    let mut window = fresh();
    let mut steps = Steps::new(CountLedger::new());
    let _ended = machine.act(code, &mut window, 0, &mut steps);
    steps.into_ledger().count()
}

/// The shortest time per event over all parts, in picoseconds.
fn picoseconds(clock: &impl Clock, machine: &mut Machine, code: &Code) -> io::Result<u128> {
    let mut least = u128::MAX;
    for _ in 0..EVENTS / PART {
        let begin = Instant::now(clock)?;
        let _sum = make(machine, code, PART);
        least = least.min(begin.elapsed(clock)?.as_nanos());
    }
    Ok(least.saturating_mul(1_000) / u128::from(PART))
}

/// The code to run, or an error if memory ran out or the code is not valid.
fn code_or_error(alloc: Global, which: Which) -> io::Result<Code> {
    match code_of(alloc, which) {
        Ok(Some(code)) => Ok(code),
        Ok(None) => Err(io::ErrorKind::InvalidData.into()),
        Err(_) => Err(io::ErrorKind::OutOfMemory.into()),
    }
}

/// Runs a code as the word asks: none for its steps, `time` for its time, its name for its events.
fn run_code(
    rt: &HostRuntime,
    machine: &mut Machine,
    name: &str,
    code: &Code,
    word: Option<&str>,
) -> io::Result<()> {
    match word {
        None => {
            let steps = steps_of(machine, code);
            println!(*rt; "{name}: {steps} steps an event")
        }
        Some("time") => {
            let time = picoseconds(rt, machine, code)?;
            println!(*rt; "{name}: {time} picoseconds an event")
        }
        Some(word) => {
            if word == name {
                let sum = make(machine, code, EVENTS);
                println!(*rt; "{name}: {EVENTS} events, {sum}")
            } else {
                Ok(())
            }
        }
    }
}

/// Runs the codes. Without a word it prints the number of steps of each code, and with `time` their
/// times. With the name of a code it runs only that code, to be counted from outside; with `none` it
/// runs nothing.
pub fn run(rt: &HostRuntime, word: Option<&str>) -> io::Result<()> {
    let Ok(mut machine) = Machine::new(rt.alloc()) else {
        return Err(io::ErrorKind::OutOfMemory.into());
    };
    for (name, which) in CODES {
        let code = code_or_error(rt.alloc(), which)?;
        run_code(rt, &mut machine, name, &code, word)?;
    }
    Ok(())
}
