//! The least of some numbers that change one at a time.
ghost use Rattle.std.specs.Prelude.{◌≡◌, ◌<◌, ◌+◌, ◌*◌, [], IfOk, MatchOption, drop, length, min, slice_index, slice_set};
ghost use Rattle.event_journal.specs.Tournaments.{IsLeast, IsTournament};

use feast_base::NoMemory;
use std::alloc::Global;
use std::marker::Model;

/// Some numbers, of which the least is at hand: the leaves of a binary tree. Below node i are nodes
/// 2i and 2i + 1, node 1 is the root, and the leaves are the nodes from number `leaves` on. Each
/// other node has the lesser number of the two below it.
#[derive(Drop)]
pub(crate) struct Tournament {
    leaves: usize,
    nodes: Vec<u64>,
}

impl Model for Tournament {
    ghost use Rattle.std.specs.Prelude.{ℕ, List, drop};
    ghost use Rattle.event_journal.specs.Tournaments.{IsTournament};

    ghost Value = { List ℕ };

    ghost view = { λ t. drop t.leaves t.nodes.items };

    ghost invariant = { λ t. IsTournament t.leaves t.nodes.items };
}

impl Tournament {
    /// A tournament of these numbers. `NoMemory` if there is none for it.
    pub(crate) fn new(alloc: Global, numbers: &[u64]) -> Result<Tournament, NoMemory>
        ensures { IfOk result (λ t. t ≡ numbers.now) }
    {
        let leaves = numbers.len();
        let mut nodes = Vec::from_elem(alloc, 0u64, leaves)?;
        nodes.extend_from_slice(numbers)?;
        play_all(nodes.as_mut_slice(), leaves);
        Ok(Tournament { leaves, nodes })
    }

    /// The least number, if there is one.
    pub(crate) fn least(&self) -> Option<u64>
        ensures { MatchOption result (self.now ≡ []) (λ n. IsLeast n self.now) }
    {
        if self.leaves == 0 {
            None
        } else {
            Some(self.nodes[1])
        }
    }

    /// Changes the number at a place.
    pub(crate) fn set(&mut self, place: usize, number: u64)
        requires { place < length self.old }
        ensures { self.new ≡ slice_set self.old place number }
    {
        change(self.nodes.as_mut_slice(), self.leaves, place, number);
    }
}

/// Gives a node the lesser number of the two below it.
fn play(nodes: &mut [u64], node: usize)
    requires { 2 * node + 1 < length nodes.old }
    ensures { nodes.new ≡ slice_set nodes.old node (min (slice_index nodes.old (2 * node)) (slice_index nodes.old (2 * node + 1))) }
{
    nodes[node] = nodes[2 * node].min(nodes[2 * node + 1]);
}

/// Plays all nodes that are no leaves.
fn play_all(nodes: &mut [u64], leaves: usize)
    requires { length nodes.old ≡ leaves + leaves }
    ensures valid { IsTournament leaves nodes.new }
    ensures leaves { drop leaves nodes.new ≡ drop leaves nodes.old }
{
    for step in 1..leaves {
        play(nodes, leaves - step);
    }
}

/// Changes the number of a leaf, and plays the nodes above it, up to the root.
fn change(nodes: &mut [u64], leaves: usize, place: usize, number: u64)
    requires place { place < leaves }
    requires valid { IsTournament leaves nodes.old }
    ensures valid { IsTournament leaves nodes.new }
    ensures leaves { drop leaves nodes.new ≡ slice_set (drop leaves nodes.old) place number }
{
    nodes[leaves + place] = number;
    let mut node = (leaves + place) / 2;
    while node > 0 {
        play(nodes, node);
        node /= 2;
    }
}
