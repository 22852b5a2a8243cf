//! An edge that two threads share: the edge, its two passes, and the edge when both are done.
ghost use Rattle.std.specs.Prelude.{◌≡◌, ◌<◌, ◌^◌, IfOk};
ghost use Rattle.edge_lock.specs.Edges.{registers_of};
ghost use Rattle.edge_lock.specs.declared.history.Access.TheVariants.{Read, Write};
ghost use Rattle.edge_lock.specs.History.{register_value, site_count, IsAllowed};
ghost use Rattle.edge_lock.specs.EndLists.{IsNew, IsFree, IsHeld, after_try, after_access, after_give, known_value, Shows};
ghost use Rattle.edge_lock.specs.Passes.{with_lists, IsFresh, IsClosed};
ghost use Rattle.feast_base.specs.declared.limits.TheConstants.{MOST_ATTEMPTS};

use crate::board::Take;
use crate::edge_steps::{
    CLAIMS, Claim, EdgeRule, Ends, Give, LOCK, NOTES, REGISTERS, Settle, Try, View, WORDS,
    note_access,
};
use crate::registers::Registers;
use atomic_table::{Refused, Seat, Table};
use feast_base::NoMemory;
use std::alloc::Global;
use std::marker::{Brand, Model};

/// An edge that two ends share. Contracts see its number and how many registers it has.
#[derive(Drop)]
pub struct Edge {
    table: Table<Registers, View, u32, EdgeRule, Global>,
    number: u32,
}

impl Model for Edge {
    ghost use Rattle.std.specs.Prelude.{◌≡◌};
    ghost use Rattle.edge_lock.specs.Passes.{EdgeValue, edge_value};

    ghost Value = { EdgeValue };

    ghost view = { λ e. edge_value e.table.shared.table_id e.number e.table.shared.key };

    ghost invariant = { λ e. e.table.shared.table_id.words ≡ 35 };
}

/// One end's right to take an edge. Contracts see which edge and which end it is, and what that end
/// did: its holds and its refusals, in order.
#[derive(Drop)]
pub struct Pass {
    seat: Seat<Registers, View>,
    edge: u32,
    end: u32,
}

impl Model for Pass {
    ghost use Rattle.std.specs.Prelude.{◌<◌};
    ghost use Rattle.edge_lock.specs.SharedRule.{lists_in, registers_in};
    ghost use Rattle.edge_lock.specs.Passes.{PassValue, edge_value, pass_value, IsPaired};

    ghost Value = { PassValue };

    ghost view = { λ p. pass_value (edge_value p.seat.table_id p.edge (registers_in p.seat.me.0)) p.end (lists_in p.seat.me.0) };

    ghost invariant = { λ p. (p.end < 2) × IsPaired (registers_in p.seat.me.0) p.end p.seat.me };
}

impl Pass {
    /// The number of the edge that the pass was made with.
    pub fn edge(&self) -> u32
        ensures { result ≡ self.now.of.number }
    {
        self.edge
    }
}

/// An edge whose two ends are done. Contracts see its one history, the refusals of each end, and
/// how many registers it has.
#[derive(Drop)]
pub struct Closed {
    table: Table<Registers, View, u32, EdgeRule, Global>,
    seat: Seat<Registers, View>,
}

impl Model for Closed {
    ghost use Rattle.std.specs.Prelude.{◌≡◌};
    ghost use Rattle.edge_lock.specs.Passes.{ClosedValue, closed_value, KeepsHistory};

    ghost Value = { ClosedValue };

    ghost view = { λ c. closed_value c.table.shared.key c.seat.me.0 };

    ghost invariant = { λ c. (c.seat.table_id ≡ c.table.shared.table_id) × KeepsHistory c.table.shared.key c.seat.me };
}

impl Closed {
    /// What a register has at the end of the history. It changes no register and no history.
    pub fn word(&mut self, register: u32) -> u64
        requires { register < self.old.registers }
        ensures same { self.new ≡ self.old }
        ensures value { result ≡ register_value self.old.holds register }
    {
        let registers = self.seat.slot_mut(&self.table.shared, REGISTERS);
        registers.get(register)
    }
}

impl Edge {
    /// An edge with this number and this many shared sites, and a pass for each end, the first for
    /// end 0. Its registers are the clock, two for each site and the news words of both ends, all
    /// of them 0.
    ///
    /// `NoMemory` if there was no memory for the words or the registers.
    pub fn new(alloc: Global, edge: u32, sites: u32) -> Result<(Edge, Pass, Pass), NoMemory>
        requires fits { registers_of sites < 2 ^ 32 }
        ensures edge { IfOk result (λ r. (r.0.number ≡ edge) × (r.0.registers ≡ registers_of sites)) }
        ensures passes { IfOk result (λ r. IsFresh r.1 r.0 0 × IsFresh r.2 r.0 1) }
    {
        let registers = 1 + 2 * sites + 2 * ((sites + 63) / 64);
        Edge::with_registers(alloc, edge, registers)
    }

    /// An edge with this number and this many registers, and a pass for each end.
    fn with_registers(
        alloc: Global,
        edge: u32,
        registers: u32,
    ) -> Result<(Edge, Pass, Pass), NoMemory>
        ensures edge { IfOk result (λ r. (r.0.number ≡ edge) × (r.0.registers ≡ registers)) }
        ensures passes { IfOk result (λ r. IsFresh r.1 r.0 0 × IsFresh r.2 r.0 1) }
    {
        let mut slots = Vec::new(alloc);
        slots.push(Registers::zeros(alloc, registers)?)?;
        let (table, mut seat) = match Table::new(alloc, &[0; WORDS], slots, &registers) {
            Ok(made) => made,
            Err(Refused { slots: _ }) => return Err(NoMemory),
        };
        table.shared.fetch_add::<Claim>(&mut seat, CLAIMS, 1);
        let mut other = table.shared.split_seat::<Ends>(&mut seat);
        table.shared.fetch_add::<Claim>(&mut other, CLAIMS, 1);
        let lower = Pass { seat, edge, end: 0 };
        let higher = Pass {
            seat: other,
            edge,
            end: 1,
        };
        let edge = Edge {
            table,
            number: edge,
        };
        Ok((edge, lower, higher))
    }

    /// Joins what both ends did. The holds of both passes are one history, each end's own once and
    /// in order, and every refusal names a hold of the other end, at its place.
    pub fn close(self, lower: Pass, higher: Pass) -> Closed
        requires lower { (lower.of ≡ self) × (lower.end ≡ 0) × IsFree lower.lists }
        requires higher { (higher.of ≡ self) × (higher.end ≡ 1) × IsFree higher.lists }
        ensures registers { result.registers ≡ self.registers }
        ensures history { IsClosed result lower.lists higher.lists }
    {
        let Edge { table, number: _ } = self;
        let Pass {
            mut seat,
            edge: _,
            end: _,
        } = lower;
        let Pass {
            seat: other,
            edge: _,
            end: _,
        } = higher;
        table.shared.join_seat::<Ends>(&mut seat, other);
        table.shared.load::<Settle>(&mut seat, NOTES);
        Closed { table, seat }
    }

    /// One exchange of the lock word. If it finds 0, the end has the edge from then on; otherwise
    /// the word that it found names the attempt of the other end's hold.
    pub(crate) fn try_take(&self, pass: &mut Pass, attempt: u64) -> Take
        requires edge { pass.old.of ≡ self.now }
        requires free { IsFree pass.old.lists }
        requires attempt { attempt < MOST_ATTEMPTS }
        requires is_new { IsNew attempt pass.old.lists }
        ensures pass { pass.new ≡ with_lists pass.old (after_try pass.old.end attempt result pass.old.lists) }
        ensures end { pass.old.end < 2 }
    {
        let word = 1 + 2 * attempt + u64::from(pass.end);
        let found = self
            .table
            .shared
            .compare_exchange::<Try>(&mut pass.seat, LOCK, 0, word);
        if found == 0 {
            Take::Got
        } else {
            Take::Busy {
                holder_attempt: (found - 1) / 2,
            }
        }
    }

    /// What a register has.
    #[inline]
    pub(crate) fn read(&self, pass: &mut Pass, register: u32) -> u64
        requires edge { pass.old.of ≡ self.now }
        requires register { register < self.now.registers }
        requires held { IsHeld pass.old.lists }
        ensures value { Shows (known_value pass.old.lists register) result }
        ensures allowed { IsAllowed (site_count self.now.registers) register result }
        ensures pass { pass.new ≡ with_lists pass.old (after_access (Read register result) pass.old.lists) }
    {
        let table = &self.table.shared;
        let value = pass.seat.slot_mut(table, REGISTERS).get(register);
        note_access::<Brand>(table, &mut pass.seat, register, value);
        value
    }

    /// Changes a register.
    #[inline]
    pub(crate) fn write(&self, pass: &mut Pass, register: u32, value: u64)
        requires edge { pass.old.of ≡ self.now }
        requires register { register < self.now.registers }
        requires held { IsHeld pass.old.lists }
        requires allowed { IsAllowed (site_count self.now.registers) register value }
        ensures { pass.new ≡ with_lists pass.old (after_access (Write register value) pass.old.lists) }
    {
        let table = &self.table.shared;
        pass.seat.slot_mut(table, REGISTERS).set(register, value);
        note_access::<Brand>(table, &mut pass.seat, register, value);
    }

    /// Gives the edge back.
    #[inline]
    pub(crate) fn give(&self, pass: &mut Pass)
        requires edge { pass.old.of ≡ self.now }
        requires held { IsHeld pass.old.lists }
        ensures { pass.new ≡ with_lists pass.old (after_give pass.old.lists) }
    {
        self.table.shared.store::<Give>(&mut pass.seat, LOCK, 0);
    }
}
