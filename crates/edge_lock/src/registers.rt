//! The registers of an edge that two threads share, in plain memory.
ghost use Rattle.std.specs.Prelude.{◌≡◌, ◌<◌, length, slice_index, slice_set, replicate, IfOk};

use feast_base::NoMemory;
use std::alloc::Global;
use std::marker::Model;

/// How many idle words keep what two processors change apart: two lines of their caches.
const IDLE: usize = 16;

/// The registers of an edge side by side, which only the end that has the edge reads and writes.
/// Contracts see their values as a list.
///
/// Each access begins with where they lie. Idle words stand around that, since what is next to it in
/// memory may be the registers of another edge, which other processors change.
#[derive(Drop)]
pub struct Registers {
    idle_before: [u64; IDLE],
    words: Vec<u64>,
    idle_behind: [u64; IDLE],
}

impl Model for Registers {
    ghost use Rattle.std.specs.Prelude.{ℕ, List};

    ghost Value = { List ℕ };

    ghost view = { λ r. r.words.items };
}

impl Registers {
    /// This many registers, all of them 0. `NoMemory` if there was no memory for them.
    pub(crate) fn zeros(alloc: Global, count: u32) -> Result<Registers, NoMemory>
        ensures { IfOk result (λ r. r ≡ replicate count 0) }
    {
        Ok(Registers {
            idle_before: [0; IDLE],
            words: Vec::from_elem(alloc, 0u64, count as usize)?,
            idle_behind: [0; IDLE],
        })
    }

    /// What a register has.
    #[inline]
    pub(crate) fn get(&self, register: u32) -> u64
        requires { register < length self.now }
        ensures { result ≡ slice_index self.now register }
    {
        self.words[register as usize]
    }

    /// Changes a register.
    #[inline]
    pub(crate) fn set(&mut self, register: u32, value: u64)
        requires { register < length self.old }
        ensures { self.new ≡ slice_set self.old register value }
    {
        self.words[register as usize] = value;
    }
}
