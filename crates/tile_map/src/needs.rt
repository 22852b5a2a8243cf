//! Short lists of edges.

ghost use Rattle.std.specs.Prelude.{◌≡◌, ◌<◌, ◌≤◌, [], ◌∷◌, ◌++◌, length, slice_index};
ghost use Rattle.tile_map.specs.declared.limits.TheConstants.{MOST_NEEDS};

use crate::limits::MOST_NEEDS;
use arrayvec::ArrayVec;
use std::marker::Model;

/// At most 8 edges in rising order: those that an event needs, or all those of a tile.
#[derive(Drop)]
pub struct Needs {
    edges: ArrayVec<u32, MOST_NEEDS>,
}

impl Model for Needs {
    ghost use Rattle.std.specs.Prelude.{ℕ, List};

    ghost Value = { List ℕ };

    ghost view = { λ n. n.edges.items };
}

impl Needs {
    /// No edge.
    pub(crate) fn new() -> Needs
        ensures { result ≡ [] }
    {
        Needs {
            edges: ArrayVec::new(),
        }
    }

    /// The same edges once more.
    pub(crate) fn copy(&self) -> Needs
        ensures { result ≡ self.now }
    {
        let mut copy = Needs::new();
        for edge in self.edges.as_slice() {
            copy.push(*edge);
        }
        copy
    }

    /// Appends an edge.
    pub(crate) fn push(&mut self, edge: u32)
        requires { length self.old < MOST_NEEDS }
        ensures { self.new ≡ self.old ++ edge ∷ [] }
    {
        self.edges.push(edge);
    }

    /// The edges as a slice.
    pub(crate) fn as_slice(&self) -> &[u32]
        ensures { result.now ≡ self.now }
    {
        self.edges.as_slice()
    }

    /// How many edges there are.
    pub fn len(&self) -> usize
        ensures count { result ≡ length self.now }
        ensures few { result ≤ MOST_NEEDS }
    {
        self.edges.len()
    }

    /// The edge at place `i`, which is below the number of edges.
    pub fn edge(&self, i: usize) -> u32
        requires { i < length self.now }
        ensures { result ≡ slice_index self.now i }
    {
        self.edges.as_slice()[i]
    }
}
