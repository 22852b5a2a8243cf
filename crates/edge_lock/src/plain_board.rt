//! All edges of a plane on one board, for one thread. One tile's end acts at a time.
ghost use Rattle.std.specs.Prelude.{◌≡◌, ◌<◌, length, map, IfOk, All};
ghost use Rattle.edge_lock.specs.declared.history.Access.TheVariants.{Read, Write};
ghost use Rattle.edge_lock.specs.History.{register_value, site_count, IsAllowed};
ghost use Rattle.edge_lock.specs.EndLists.{IsFree, IsHeld, IsNew, HasNoWrite, Shows, known_value, after_access, after_give};
ghost use Rattle.edge_lock.specs.EndValues.{ChangesAt, HasTried};
ghost use Rattle.edge_lock.specs.PlainEdges.{IsAnswer};
ghost use Rattle.edge_lock.specs.PlainBoard.{edge_at, registers_on, end_on, lists_on, acting_end, other_lists_on, tries, reads, writes, gives, IsCall, Moved, untouched_edge, sizes_of_board, IsKeptEdge};
ghost use Rattle.feast_base.specs.declared.limits.TheConstants.{MOST_ATTEMPTS};

use crate::board::{Board, Take};
use crate::edge_sizes::EdgeSizes;
use crate::plain_edge::PlainEdge;
use feast_base::NoMemory;
use std::alloc::Global;
use std::marker::Model;

/// All edges of a plane, each with the history of both its ends. Contracts see the tile whose end
/// acts, and each edge with its two tiles, its number of registers and its history.
///
/// A try is Busy exactly when the other end has the edge.
#[derive(Drop)]
pub struct PlainBoard {
    edges: Vec<PlainEdge>,
    acting: u32,
}

impl Model for PlainBoard {
    ghost use Rattle.std.specs.Prelude.{All};
    ghost use Rattle.edge_lock.specs.PlainBoard.{PlainBoardValue, plain_board_value, IsKeptEdge};

    ghost Value = { PlainBoardValue };

    ghost view = { λ b. plain_board_value b.acting b.edges.items };

    ghost invariant = { λ b. All IsKeptEdge b.edges.items };
}

impl PlainBoard {
    /// The board of these edges. All registers are 0, nothing has happened, and tile 0's end acts.
    ///
    /// `NoMemory` if there was no memory for the edges.
    pub fn new<S: EdgeSizes>(alloc: Global, sizes: &S) -> Result<PlainBoard, NoMemory>
        ensures acting { IfOk result (λ b. b.acting ≡ 0) }
        ensures edges { IfOk result (λ b. b.edges ≡ map untouched_edge (S.sizes sizes.now)) }
        ensures sizes { IfOk result (λ b. sizes_of_board b ≡ S.sizes sizes.now) }
        ensures histories { IfOk result (λ b. All IsKeptEdge b.edges) }
    {
        let mut edges = Vec::new(alloc);
        for edge in 0..sizes.edges() {
            let (lower, higher) = sizes.ends(edge);
            let new = PlainEdge::new(alloc, lower, higher, sizes.registers(edge))?;
            edges.push(new)?;
        }
        Ok(PlainBoard { edges, acting: 0 })
    }

    /// A register of an edge. It changes no register and no history.
    pub fn word(&mut self, edge: u32, register: u32) -> u64
        requires edge { edge < length self.old.edges }
        requires register { register < (edge_at self.old edge).registers }
        ensures same { self.new ≡ self.old }
        ensures value { result ≡ register_value (edge_at self.old edge).holds register }
    {
        self.edges[edge as usize].word(register)
    }

    /// Lets a tile's end act from now on. It changes no register and no history.
    pub fn turn_to(&mut self, tile: u32)
        ensures acting { self.new.acting ≡ tile }
        ensures edges { self.new.edges ≡ self.old.edges }
        ensures histories { All IsKeptEdge self.old.edges }
    {
        self.acting = tile;
    }
}

impl Board for PlainBoard {
    ghost use Rattle.edge_lock.specs.PlainBoard.{acting_end, Moved, stays, moved_on};

    ghost end = { acting_end };

    ghost moved = { Moved };

    /// Tries to take an edge. Busy comes exactly when the other end has it.
    fn try_take(&mut self, edge: u32, attempt: u64) -> Take
        requires edge { 0 < registers_on self.old edge }
        requires free { IsFree (lists_on self.old edge) }
        requires attempt { attempt < MOST_ATTEMPTS }
        requires is_new { IsNew attempt (lists_on self.old edge) }
        ensures end { end_on self.old edge < 2 }
        ensures answer { IsAnswer (end_on self.old edge) (edge_at self.old edge) result }
        ensures call { IsCall self.old edge (tries attempt) self.new }
        ensures change { HasTried edge attempt result (acting_end self.old) (acting_end self.new) }
        ensures moved { Moved self.old self.new }
        ensures others { other_lists_on self.new ≡ other_lists_on self.old }
        ensures histories { All IsKeptEdge self.new.edges }
    {
        let it = &mut self.edges[edge as usize];
        let end = it.end_of(self.acting);
        it.try_take(end, attempt)
    }

    /// What a register has of an edge that the acting end has.
    fn read(&mut self, edge: u32, register: u32) -> u64
        requires edge { register < registers_on self.old edge }
        requires held { IsHeld (lists_on self.old edge) }
        ensures value { Shows (known_value (lists_on self.old edge) register) result }
        ensures allowed { IsAllowed (site_count (registers_on self.old edge)) register result }
        ensures is_register { result ≡ register_value (edge_at self.old edge).holds register }
        ensures call { IsCall self.old edge (reads register) self.new }
        ensures change { ChangesAt edge (after_access (Read register result)) (acting_end self.old) (acting_end self.new) }
        ensures moved { Moved self.old self.new }
        ensures others { other_lists_on self.new ≡ other_lists_on self.old }
        ensures histories { All IsKeptEdge self.new.edges }
    {
        let it = &mut self.edges[edge as usize];
        let end = it.end_of(self.acting);
        it.read(end, register)
    }

    /// Changes a register of an edge that the acting end has.
    fn write(&mut self, edge: u32, register: u32, value: u64)
        requires edge { register < registers_on self.old edge }
        requires held { IsHeld (lists_on self.old edge) }
        requires allowed { IsAllowed (site_count (registers_on self.old edge)) register value }
        ensures call { IsCall self.old edge (writes register value) self.new }
        ensures change { ChangesAt edge (after_access (Write register value)) (acting_end self.old) (acting_end self.new) }
        ensures moved { Moved self.old self.new }
        ensures others { other_lists_on self.new ≡ other_lists_on self.old }
        ensures histories { All IsKeptEdge self.new.edges }
    {
        let it = &mut self.edges[edge as usize];
        let end = it.end_of(self.acting);
        it.write(end, register, value);
    }

    /// Gives an edge back that the acting end has.
    fn give(&mut self, edge: u32)
        requires edge { 0 < registers_on self.old edge }
        requires held { IsHeld (lists_on self.old edge) }
        ensures call { IsCall self.old edge gives self.new }
        ensures change { ChangesAt edge after_give (acting_end self.old) (acting_end self.new) }
        ensures moved { Moved self.old self.new }
        ensures others { other_lists_on self.new ≡ other_lists_on self.old }
        ensures histories { All IsKeptEdge self.new.edges }
    {
        let it = &mut self.edges[edge as usize];
        let end = it.end_of(self.acting);
        it.give(end);
    }

    /// Gives an edge back on which the acting end's hold has written nothing.
    fn give_back(&mut self, edge: u32)
        requires edge { 0 < registers_on self.old edge }
        requires held { IsHeld (lists_on self.old edge) }
        requires unwritten { HasNoWrite (lists_on self.old edge) }
        ensures call { IsCall self.old edge gives self.new }
        ensures change { ChangesAt edge after_give (acting_end self.old) (acting_end self.new) }
        ensures moved { Moved self.old self.new }
        ensures others { other_lists_on self.new ≡ other_lists_on self.old }
        ensures histories { All IsKeptEdge self.new.edges }
    {
        self.give(edge);
    }

    ghost moved_same = { λ x. stays x };

    ghost moved_on = { moved_on };
}
