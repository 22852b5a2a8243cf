//! One tile's end of edges that tiles of other threads use too.
ghost use Rattle.std.specs.Prelude.{◌≡◌, ◌<◌, All, length};
ghost use Rattle.edge_lock.specs.SharedEnds.{IsPassOf, pass_position, pass_registers};

use crate::board::{Board, Take};
use crate::edge::{Edge, Pass};
use std::marker::Model;

/// One tile's end of its shared edges: the edges of the plane, and the tile's own passes.
/// Contracts see the tile and the passes.
///
/// A try is Busy only if its one exchange found the word of the other end's hold, which names the
/// attempt. The pass keeps it as a refusal. When the edge is closed, that hold is in the history of
/// the other end.
///
/// Only a try looks a pass up while the program runs, for its end. What reads, writes and gives edges
/// back does so in the code alone: the pass says what the end did, and nothing of that is kept.
#[derive(Drop)]
pub struct SharedEnd<'a> {
    edges: &'a [Edge],
    passes: Vec<Pass>,
    tile: u32,
}

impl<'a> Model for SharedEnd<'a> {
    ghost use Rattle.std.specs.Prelude.{All};
    ghost use Rattle.edge_lock.specs.SharedEnds.{SharedEndValue, shared_end_value, IsPassOf};

    ghost Value = { SharedEndValue };

    ghost view = { λ s. shared_end_value s.tile s.passes.items };

    ghost invariant = { λ s. All (IsPassOf s.edges.now) s.passes.items };
}

/// The position of the pass of an edge, or the number of passes if none has it. A tile has at most
/// eight edges.
fn pass_position(passes: &[Pass], edge: u32) -> usize
    ensures { result ≡ pass_position passes.now edge }
{
    for i in 0..passes.len() {
        if passes[i].edge() == edge {
            return i;
        }
    }
    passes.len()
}

impl<'a> SharedEnd<'a> {
    /// The end of a tile. The edge at position e of `edges` has number e, each pass was made with
    /// the edge of its number, and the passes are the tile's, in order of its edges.
    pub fn new(edges: &'a [Edge], passes: Vec<Pass>, tile: u32) -> SharedEnd<'a>
        requires { All (IsPassOf edges.now) passes.items }
        ensures tile { result.tile ≡ tile }
        ensures passes { result.passes ≡ passes.items }
    {
        SharedEnd {
            edges,
            passes,
            tile,
        }
    }

    /// The position of the pass of an edge.
    #[inline]
    #[tactic(auto, using(crate::proofs::PassPositions::position_inside))]
    fn position(&self, edge: u32) -> usize
        requires { 0 < pass_registers self.now.passes edge }
        ensures is { result ≡ pass_position self.now.passes edge }
        ensures inside { result < length self.now.passes }
    {
        pass_position(self.passes.as_slice(), edge)
    }

    /// Hands the passes back, in the same order.
    pub fn into_passes(self) -> Vec<Pass>
        ensures { result.items ≡ self.entry.passes }
    {
        let SharedEnd {
            edges: _,
            passes,
            tile: _,
        } = self;
        passes
    }
}

impl<'a> Board for SharedEnd<'a> {
    ghost use Rattle.std.specs.Prelude.{refl};
    ghost use Rattle.std.proofs.Common.{◌∙◌};
    ghost use Rattle.edge_lock.specs.SharedEnds.{shared_end, SamePasses};

    ghost end = { shared_end };

    ghost moved = { SamePasses };

    fn try_take(&mut self, edge: u32, attempt: u64) -> Take {
        let i = self.position(edge);
        self.edges[edge as usize].try_take(&mut self.passes[i], attempt)
    }

    fn read(&mut self, edge: u32, register: u32) -> u64 {
        let i = self.position(edge);
        self.edges[edge as usize].read(&mut self.passes[i], register)
    }

    fn write(&mut self, edge: u32, register: u32, value: u64) {
        let i = self.position(edge);
        self.edges[edge as usize].write(&mut self.passes[i], register, value);
    }

    fn give(&mut self, edge: u32) {
        let i = self.position(edge);
        self.edges[edge as usize].give(&mut self.passes[i]);
    }

    fn give_back(&mut self, edge: u32) {
        self.give(edge);
    }

    ghost moved_same = { λ x. record { tile = refl; passes = refl } };

    ghost moved_on = { λ x y z p q. record { tile = q.tile ∙ p.tile; passes = q.passes ∙ p.passes } };
}
