//! The machine: the running function and the functions that wait.

ghost use Rattle.std.specs.Prelude.{◌≡◌, ◌<◌, ◌≤◌, ◌+◌, ◌*◌, ◌^◌, ℕ, length, ◌-◌, min, false, IsTrue, IfOk, vec_len, vec_capacity, Some};
ghost use Rattle.window_sites.specs.Window.{live_at, atom_at};
ghost use Rattle.stack_code.specs.Machine.{CodeValue, step, go_by, back, enter, onward, work, start, runs};
ghost use Rattle.stack_code.specs.Sorts.{sort, GotoFalse, Take};
ghost use Rattle.stack_code.specs.Valid.{args_fit};
ghost use Rattle.event_machine.specs.Works.{StepsTo, Ready, FunctionsFit, as_list, Started, counting, Ran, window_after, Idles};
ghost use Rattle.event_machine.specs.Endings.{ending_number, IsEnding};
ghost use Rattle.event_machine.specs.Ticks.{Ticks};
ghost use Rattle.bit_field.specs.declared.TheConstants.{STATE_BITS};
ghost use Rattle.stack_code.specs.declared.limits.TheConstants.{MOST_OPERANDS, MOST_SLOTS};
ghost use Rattle.event_machine.specs.declared.machine.TheConstants.{MOST_WAITING};
ghost use Rattle.feast_base.specs.declared.limits.TheConstants.{MOST_TURNS};

use crate::activation::Activation;
use crate::dispatch::plain;
use crate::ending::{Ended, Leads};
use crate::frame::{Frame, recover};
use crate::operands::{OperandStack, reserve};
use crate::steps::{Ledger, Steps};
use bit_field::Atom;
use datum::Datum;
use draw_stream::EventDraws;
use feast_base::{MOST_CALLS, MOST_TURNS, NoMemory};
use stack_code::{Code, Instr, MOST_SLOTS, RawFunction};
use std::alloc::Global;
use std::marker::Model;
use window_sites::Window;

/// The most functions that can wait.
pub const MOST_WAITING: usize = MOST_CALLS;

/// A machine that runs the code of one event after another, in memory that it allocated once.
#[derive(Drop)]
pub struct Machine {
    place: usize,
    turns: u32,
    running: Activation,
    waiting: Vec<Frame>,
    spare: Vec<Frame>,
}

impl Model for Machine {
    ghost use Rattle.std.specs.Prelude.{◌≡◌, ◌+◌, ◌≤◌, reverse, vec_len, vec_capacity};
    ghost use Rattle.stack_code.specs.Machine.{State};
    ghost use Rattle.event_machine.specs.declared.machine.TheConstants.{MOST_WAITING};

    ghost Value = { State };

    ghost view = { λ m. record { place = m.place; held = m.running; below = reverse m.waiting.items; turns = m.turns } };

    ghost invariant = { λ m. (vec_len m.waiting + vec_len m.spare ≡ MOST_WAITING) × (MOST_WAITING ≤ vec_capacity m.waiting) × (MOST_WAITING ≤ vec_capacity m.spare) };
}

/// Memory for a list of frames.
fn reserve_frames(alloc: Global) -> Result<Vec<Frame>, NoMemory>
    ensures len { IfOk result (λ v. vec_len v ≡ 0) }
    ensures room { IfOk result (λ v. vec_capacity v ≡ MOST_WAITING) }
{
    match Vec::with_capacity(alloc, MOST_WAITING) {
        Ok(room) => Ok(room),
        Err(_) => Err(NoMemory),
    }
}

/// Frames for all functions that can wait.
fn frames(alloc: Global) -> Result<Vec<Frame>, NoMemory>
    ensures len { IfOk result (λ v. vec_len v ≡ MOST_WAITING) }
    ensures room { IfOk result (λ v. vec_capacity v ≡ MOST_WAITING) }
{
    let mut spare = reserve_frames(alloc)?;
    while spare.len() < MOST_WAITING {
        let frame = Frame::new(alloc)?;
        spare.push_reserved(frame);
    }
    Ok(spare)
}

/// Whether the code ends with its first instruction, so that its events leave their windows as they
/// are.
fn is_idle(code: &Code) -> bool
    ensures { IsTrue result → Idles code.now }
{
    matches!(code.instrs().get(0), Some(Instr::ReturnVoid))
}

impl Machine {
    /// A machine with all the memory that events need. `NoMemory` if it is not available.
    pub fn new(alloc: Global) -> Result<Machine, NoMemory> {
        let operands = OperandStack::new(alloc)?;
        let slots = reserve(alloc, MOST_SLOTS)?;
        let spare = frames(alloc)?;
        let waiting = reserve_frames(alloc)?;
        let running = Activation {
            operands,
            slots,
            window: Window::empty(),
            draws: EventDraws::new(0),
        };
        Ok(Machine {
            place: 0,
            turns: 0,
            running,
            waiting,
            spare,
        })
    }

    /// Calls a function.
    fn call(&mut self, function: &RawFunction) -> Leads
        requires slots { function.now.params ≤ length function.now.slots }
        requires few { length function.now.slots ≤ MOST_SLOTS }
        requires room { length self.old.held.stack ≤ MOST_OPERANDS }
        requires place { self.old.place + 1 < 2 ^ 64 }
        ensures { StepsTo (enter self.old (Some function.now)) self.new result }
    {
        if self.running.operands.len() < function.params() as usize {
            return Leads::Lack;
        }
        if self.turns == 0 {
            return Leads::Fail(1);
        }
        match self.spare.pop() {
            None => Leads::Fail(2),
            Some(mut frame) => {
                self.turns -= 1;
                self.running.pass(function, &mut frame, self.place + 1);
                self.waiting.push_reserved(frame);
                self.place = function.first() as usize;
                Leads::On
            }
        }
    }

    /// Returns from a function, with its result.
    fn back(&mut self, given: Option<Datum>) -> Leads
        requires { length self.old.held.stack ≤ MOST_OPERANDS }
        ensures { StepsTo (back self.old (as_list given) self.old.below) self.new result }
    {
        match self.waiting.pop() {
            None => Leads::Done,
            Some(mut frame) => {
                self.place = frame.place;
                self.running.resume(&mut frame);
                if let Some(x) = given {
                    self.running.push(x);
                }
                self.spare.push_reserved(frame);
                Leads::On
            }
        }
    }

    /// Pops a number and continues at a place if it is 0.
    #[inline(always)]
    fn jump_false(&mut self, p: u32) -> Leads
        requires { self.old.place + 1 < 2 ^ 64 }
        ensures { (code : CodeValue) → StepsTo (go_by code (GotoFalse p) self.old) self.new result }
    {
        match self.running.number() {
            Some(v) => {
                self.place = if v.value() == 0 {
                    p as usize
                } else {
                    self.place + 1
                };
                Leads::On
            }
            None => Leads::Lack,
        }
    }

    /// Uses up a turn.
    #[inline(always)]
    fn take_turn(&mut self) -> Leads
        requires { self.old.place + 1 < 2 ^ 64 }
        ensures { (code : CodeValue) → StepsTo (go_by code Take self.old) self.new result }
    {
        if self.turns == 0 {
            return Leads::Fail(1);
        }
        self.turns -= 1;
        self.place += 1;
        Leads::On
    }

    /// Does a plain instruction and continues at the next place.
    #[inline(always)]
    fn onward(&mut self, kind: u16, i: &Instr) -> Leads
        requires fits { IsTrue (args_fit i.now) }
        requires room { length self.old.held.stack ≤ MOST_OPERANDS }
        requires place { self.old.place + 1 < 2 ^ 64 }
        ensures { StepsTo (onward self.old (work kind (sort i.now) self.old.held)) self.new result }
    {
        match plain(&mut self.running, kind, i) {
            Leads::On => {
                self.place += 1;
                Leads::On
            }
            stopped => stopped,
        }
    }

    /// Does an instruction.
    #[inline(always)]
    fn perform(&mut self, code: &Code, kind: u16, i: &Instr) -> Leads
        requires kind { kind ≡ code.now.kind }
        requires fits { IsTrue (args_fit i.now) }
        requires room { length self.old.held.stack ≤ MOST_OPERANDS }
        requires place { self.old.place + 1 < 2 ^ 64 }
        requires functions { FunctionsFit code.now }
        ensures { StepsTo (go_by code.now (sort i.now) self.old) self.new result }
    {
        match *i {
            Instr::Jump(p) => {
                self.place = p as usize;
                Leads::On
            }
            Instr::JumpFalse(p) => self.jump_false(p),
            Instr::Turn => self.take_turn(),
            Instr::Call(f) => match code.functions().get(f as usize) {
                Some(function) => self.call(function),
                None => Leads::Lack,
            },
            Instr::Return => match self.running.any() {
                Some(x) => self.back(Some(x)),
                None => Leads::Lack,
            },
            Instr::ReturnVoid => self.back(None),
            _ => self.onward(kind, i),
        }
    }

    /// Does the instruction at the machine's place.
    #[inline(always)]
    fn step(&mut self, code: &Code, kind: u16, instrs: &[Instr]) -> Leads
        requires kind { kind ≡ code.now.kind }
        requires ready { Ready code.now self.old }
        requires instrs { instrs.now ≡ code.now.instrs }
        ensures { StepsTo (step code.now self.old) self.new result }
    {
        self.perform(code, kind, &instrs[self.place])
    }

    /// Begins an event.
    fn begin(&mut self, code: &Code, window: &Window, seed: u64)
        requires { FunctionsFit code.now }
        ensures { self.new ≡ start code.now window.now seed }
    {
        recover(&mut self.waiting, &mut self.spare);
        self.place = 0;
        self.turns = MOST_TURNS;
        match code.functions().get(0) {
            Some(function) => self.running.begin(function.slots(), window, seed),
            None => self.running.begin(&[], window, seed),
        }
    }

    /// Runs valid code from its start. Each step is counted before it is done, in a variable that a
    /// loop can keep in a register.
    fn run<L: Ledger>(&mut self, code: &Code, steps: &mut Steps<L>) -> Ended
        requires { Started code.now self.old }
        ensures { Ran L.noted code.now (counting self.old steps.old) (counting self.new steps.new) result }
    {
        let (kind, instrs) = (code.kind(), code.instrs());
        let mut count = steps.tick_after(steps.count());
        loop {
            match self.step(code, kind, instrs) {
                Leads::On => count = steps.tick_after(count),
                Leads::Fail(n) => {
                    steps.set_count(count);
                    return Ended::Failed(n);
                }
                Leads::Done => {
                    steps.set_count(count);
                    return Ended::Done;
                }
                Leads::Lack => unreachable!(),
            }
        }
    }

    /// Sets the window to what an event with this ending leaves.
    #[tactic(auto, using(crate::proofs::Runs::put_emptied))]
    fn leave(&self, ended: Ended, window: &mut Window)
        ensures { window.new ≡ window_after window.old self.now ended }
    {
        match ended {
            Ended::Done => *window = self.running.window,
            Ended::Failed(_) => {
                window.laws();
                window.put(0, Atom::new(0, 0));
            }
        }
    }

    /// Runs an event's code on a window, with the random words of a seed. It allocates no memory.
    ///
    /// The window becomes what the run leaves. After a failure it is the old window with an empty
    /// centre. Each instruction that ran counts as one step, including one that failed. There are at
    /// most 1,001 times as many steps as the code has instructions.
    pub fn act<L: Ledger>(
        &mut self,
        code: &Code,
        window: &mut Window,
        seed: u64,
        steps: &mut Steps<L>,
    ) -> Ended
        ensures over { (runs code.now window.old seed).over ≡ Some (window.new, ending_number result) }
        ensures ending { IsEnding result }
        ensures ticks { Ticks L.noted (runs code.now window.old seed).count steps.old steps.new }
        ensures count { steps.new.count ≡ min (steps.old.count + (runs code.now window.old seed).count) (2 ^ 64 - 1) }
        ensures most { (runs code.now window.old seed).count ≤ (MOST_TURNS + 1) * length code.now.instrs }
        ensures live { window.new.live ≡ window.old.live }
        ensures dead { (n : ℕ) → live_at window.old n ≡ false → atom_at window.new n ≡ atom_at window.old n }
        ensures states { (n : ℕ) → (atom_at window.new n).state < 2 ^ STATE_BITS }
    {
        code.laws();
        window.laws();
        if is_idle(code) {
            steps.tick();
            return Ended::Done;
        }
        self.begin(code, window, seed);
        let ended = self.run(code, steps);
        self.leave(ended, window);
        window.laws();
        ended
    }
}
