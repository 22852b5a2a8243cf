//! The words of all edges, once the tiles are over.
ghost use Rattle.std.specs.Prelude.{◌≡◌, ◌<◌, length};

use edge_lock::{Closed, PlainBoard};
use std::marker::Model;

/// The registers of all edges at the end of their histories.
///
/// Contracts see the history of each edge and how many registers it has. No call changes them.
pub trait EdgeWords {
    ghost use Rattle.serial_order.specs.Scene.{registers_at};
    ghost use Rattle.serial_order.specs.Words.{WordsValue};

    // The history of each edge, by its number, and how many registers it has.
    ghost words: { Self → WordsValue };

    /// What a register of an edge has.
    fn word(&mut self, edge: u32, register: u32) -> u64
        requires edge { edge < length (words self.old).histories }
        requires register { register < (words self.old).counts edge }
        ensures value { result ≡ registers_at (words self.old).histories edge register }
        ensures same { words self.new ≡ words self.old };
}

impl EdgeWords for PlainBoard {
    ghost use Rattle.serial_order.specs.Words.{plain_words};

    ghost words = { plain_words };

    fn word(&mut self, edge: u32, register: u32) -> u64 {
        PlainBoard::word(self, edge, register)
    }
}

/// Edges whose two ends are done, by their numbers. Contracts see each with its history.
#[derive(Drop)]
pub struct ClosedEdges {
    edges: Vec<Closed>,
}

impl Model for ClosedEdges {
    ghost use Rattle.std.specs.Prelude.{List};
    ghost use Rattle.edge_lock.specs.Passes.{ClosedValue};

    ghost Value = { List ClosedValue };

    ghost view = { λ c. c.edges.items };
}

impl ClosedEdges {
    /// The edges of these numbers: the first is edge 0.
    pub fn new(closed: Vec<Closed>) -> ClosedEdges
        ensures { result ≡ closed.items }
    {
        ClosedEdges { edges: closed }
    }
}

impl EdgeWords for ClosedEdges {
    ghost use Rattle.serial_order.specs.Words.{closed_words};

    ghost words = { closed_words };

    fn word(&mut self, edge: u32, register: u32) -> u64 {
        self.edges[edge as usize].word(register)
    }
}
