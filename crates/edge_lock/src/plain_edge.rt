//! One edge of the plain board: its lock word on a table with one seat, and its registers in plain
//! memory.
ghost use Rattle.std.specs.Prelude.{◌≡◌, ◌<◌, ◌-◌, ◌==◌, if◌then◌else◌, IfOk};
ghost use Rattle.edge_lock.specs.declared.history.Access.TheVariants.{Read, Write};
ghost use Rattle.edge_lock.specs.History.{register_value, site_count, IsAllowed};
ghost use Rattle.edge_lock.specs.EndLists.{IsNew, IsFree, IsHeld, known_value, Shows, after_try, after_access, after_give};
ghost use Rattle.edge_lock.specs.PlainEdges.{own_lists, edge_after_try, edge_after_access, edge_after_give, IsUntouched, IsAnswer, IsKept, view_of};
ghost use Rattle.feast_base.specs.declared.limits.TheConstants.{MOST_ATTEMPTS};

use crate::board::Take;
use crate::edge_steps::LOCK;
use crate::plain_steps::{PlainGive, PlainRule, PlainTry, PlainView, WORDS, note_access};
use atomic_table::{Seat, Table};
use feast_base::NoMemory;
use std::alloc::Global;
use std::marker::{Brand, Model};

/// One edge with its one seat. Contracts see its two tiles, its number of registers and its
/// history. The table keeps the lock word, and its one seat the history; no thread but the edge's
/// own reaches the registers, so they are plain memory.
#[derive(Drop)]
pub struct PlainEdge {
    table: Table<(), PlainView, u32, PlainRule, Global>,
    seat: Seat<(), PlainView>,
    registers: Vec<u64>,
    lower: u32,
    higher: u32,
}

impl Model for PlainEdge {
    ghost use Rattle.std.specs.Prelude.{◌≡◌, []};
    ghost use Rattle.edge_lock.specs.PlainEdges.{PlainEdgeValue, plain_edge_value, IsKept};
    ghost use Rattle.edge_lock.specs.RegistersNow.{AreNow};

    ghost Value = { PlainEdgeValue };

    ghost view = { λ e. plain_edge_value e.lower e.higher e.seat.me.0 };

    ghost invariant = { λ e. (e.table.shared.table_id.words ≡ 3) × (e.seat.table_id ≡ e.table.shared.table_id) × (e.seat.me.1 ≡ []) × AreNow e.seat.me.0.registers e.seat.me.0.holds e.registers.items × IsKept e.seat.me.0 };
}

impl PlainEdge {
    /// An edge between these tiles whose registers are all 0.
    ///
    /// `NoMemory` if there was no memory for the words or the registers.
    pub(crate) fn new(
        alloc: Global,
        lower: u32,
        higher: u32,
        registers: u32,
    ) -> Result<PlainEdge, NoMemory>
        ensures { IfOk result (λ e. IsUntouched e lower higher registers) }
    {
        let zeros = Vec::from_elem(alloc, 0u64, registers as usize)?;
        let (table, seat) = Table::of_words(alloc, &[0; WORDS], &registers)?;
        Ok(PlainEdge {
            table,
            seat,
            registers: zeros,
            lower,
            higher,
        })
    }

    /// Which end the tile is: 0 for the lower tile, otherwise 1.
    pub(crate) fn end_of(&self, tile: u32) -> u32
        ensures end { result ≡ if self.now.lower == tile then 0 else 1 }
        ensures small { result < 2 }
    {
        if self.lower == tile { 0 } else { 1 }
    }

    /// One exchange of the lock word for an end.
    pub(crate) fn try_take(&mut self, end: u32, attempt: u64) -> Take
        requires end { end < 2 }
        requires free { IsFree (own_lists end self.old) }
        requires attempt { attempt < MOST_ATTEMPTS }
        requires is_new { IsNew attempt (own_lists end self.old) }
        ensures answer { IsAnswer end self.old result }
        ensures edge { self.new ≡ edge_after_try end attempt result self.old }
        ensures own { own_lists end self.new ≡ after_try end attempt result (own_lists end self.old) }
        ensures other { own_lists (1 - end) self.new ≡ own_lists (1 - end) self.old }
        ensures kept { IsKept (view_of self.new) }
    {
        let word = 1 + 2 * attempt + u64::from(end);
        let table = &self.table;
        let found = table
            .shared
            .compare_exchange::<PlainTry>(&mut self.seat, LOCK, 0, word);
        if found == 0 {
            Take::Got
        } else {
            Take::Busy {
                holder_attempt: (found - 1) / 2,
            }
        }
    }

    /// What a register has, read by the end that has the edge. The code does not need to know
    /// which end it is; the contract does.
    #[inline]
    pub(crate) fn read(&mut self, end: u32, register: u32) -> u64
        requires end { end < 2 }
        requires register { register < self.old.registers }
        requires held { IsHeld (own_lists end self.old) }
        ensures is_register { result ≡ register_value self.old.holds register }
        ensures allowed { IsAllowed (site_count self.old.registers) register result }
        ensures value { Shows (known_value (own_lists end self.old) register) result }
        ensures edge { self.new ≡ edge_after_access (Read register result) self.old }
        ensures own { own_lists end self.new ≡ after_access (Read register result) (own_lists end self.old) }
        ensures other { own_lists (1 - end) self.new ≡ own_lists (1 - end) self.old }
        ensures kept { IsKept (view_of self.new) }
    {
        let value = self.registers[register as usize];
        note_access::<Brand>(&self.table, &mut self.seat, register, value);
        value
    }

    /// Changes a register, for the end that has the edge. The code does not need to know which
    /// end it is; the contract does.
    #[inline]
    pub(crate) fn write(&mut self, end: u32, register: u32, value: u64)
        requires end { end < 2 }
        requires register { register < self.old.registers }
        requires held { IsHeld (own_lists end self.old) }
        requires allowed { IsAllowed (site_count self.old.registers) register value }
        ensures edge { self.new ≡ edge_after_access (Write register value) self.old }
        ensures own { own_lists end self.new ≡ after_access (Write register value) (own_lists end self.old) }
        ensures other { own_lists (1 - end) self.new ≡ own_lists (1 - end) self.old }
        ensures kept { IsKept (view_of self.new) }
    {
        note_access::<Brand>(&self.table, &mut self.seat, register, value);
        self.registers[register as usize] = value;
    }

    /// Gives the edge back, for the end that has it. The code does not need to know which end
    /// it is; the contract does.
    pub(crate) fn give(&mut self, end: u32)
        requires end { end < 2 }
        requires held { IsHeld (own_lists end self.old) }
        ensures edge { self.new ≡ edge_after_give self.old }
        ensures own { own_lists end self.new ≡ after_give (own_lists end self.old) }
        ensures other { own_lists (1 - end) self.new ≡ own_lists (1 - end) self.old }
        ensures kept { IsKept (view_of self.new) }
    {
        let table = &self.table;
        table.shared.store::<PlainGive>(&mut self.seat, LOCK, 0);
    }

    /// What a register has, whoever has the edge.
    #[inline]
    pub(crate) fn word(&mut self, register: u32) -> u64
        requires { register < self.old.registers }
        ensures same { self.new ≡ self.old }
        ensures value { result ≡ register_value self.old.holds register }
    {
        self.registers[register as usize]
    }
}
