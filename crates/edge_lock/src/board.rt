//! What a tile sees of its edges, whether it has them alone or with tiles of other threads.
ghost use Rattle.std.specs.Prelude.{◌<◌};
ghost use Rattle.edge_lock.specs.declared.history.Access.TheVariants.{Read, Write};
ghost use Rattle.feast_base.specs.declared.limits.TheConstants.{MOST_ATTEMPTS};

/// The answer to a try to take an edge.
#[derive(Clone, Copy, PartialEq, Eq, Debug)]
pub enum Take {
    /// The tile has the edge now.
    Got,
    /// The tile at the other end has the edge.
    Busy {
        /// The attempt of the other tile that has it.
        holder_attempt: u64,
    },
}

/// One tile's end of its edges.
///
/// Contracts see the tile, its edges with their numbers of registers, and what this end did on each
/// of them: a list of holds and a list of refusals. A call changes only the lists of the named
/// edge, and neither the tile nor its edges. Each call needs an edge of the tile.
pub trait Board {
    ghost use Rattle.edge_lock.specs.History.{IsAllowed, site_count};
    ghost use Rattle.edge_lock.specs.EndLists.{IsHeld, IsFree, IsNew, HasNoWrite, Shows, after_access, after_give, known_value};
    ghost use Rattle.edge_lock.specs.EndValues.{EndValue, ChangesAt, HasTried};

    // The tile, its edges, and what this end did on each of them.
    ghost end: { Self → EndValue };

    // What calls may do to a board beyond this end's own lists. Each implementation defines it.
    ghost moved: { Self → Self → Type 0 };

    /// Tries to take an edge that this end does not have. Got begins a hold; Busy notes a refusal
    /// with the attempt of the other end that has the edge. The attempt is greater than each that
    /// this end tried on the edge before.
    fn try_take(&mut self, edge: u32, attempt: u64) -> Take
        requires edge { 0 < (end self.old).registers edge }
        requires free { IsFree ((end self.old).lists edge) }
        requires attempt { attempt < MOST_ATTEMPTS }
        requires is_new { IsNew attempt ((end self.old).lists edge) }
        ensures end { (end self.old).end_of edge < 2 }
        ensures change { HasTried edge attempt result (end self.old) (end self.new) }
        ensures moved { moved self.old self.new };

    /// What a register has, of an edge that this end has: what this hold last read or wrote there,
    /// if it did. The second register of a shared site has bits 7 to 15 equal to 0.
    fn read(&mut self, edge: u32, register: u32) -> u64
        requires edge { register < (end self.old).registers edge }
        requires held { IsHeld ((end self.old).lists edge) }
        ensures value { Shows (known_value ((end self.old).lists edge) register) result }
        ensures allowed { IsAllowed (site_count ((end self.old).registers edge)) register result }
        ensures change { ChangesAt edge (after_access (Read register result)) (end self.old) (end self.new) }
        ensures moved { moved self.old self.new };

    /// Changes a register of an edge that this end has. A word for the second register of a shared
    /// site has bits 7 to 15 equal to 0.
    fn write(&mut self, edge: u32, register: u32, value: u64)
        requires edge { register < (end self.old).registers edge }
        requires held { IsHeld ((end self.old).lists edge) }
        requires allowed { IsAllowed (site_count ((end self.old).registers edge)) register value }
        ensures change { ChangesAt edge (after_access (Write register value)) (end self.old) (end self.new) }
        ensures moved { moved self.old self.new };

    /// Gives an edge back that this end has.
    fn give(&mut self, edge: u32)
        requires edge { 0 < (end self.old).registers edge }
        requires held { IsHeld ((end self.old).lists edge) }
        ensures change { ChangesAt edge after_give (end self.old) (end self.new) }
        ensures moved { moved self.old self.new };

    /// Gives an edge back on which this hold has written nothing.
    fn give_back(&mut self, edge: u32)
        requires edge { 0 < (end self.old).registers edge }
        requires held { IsHeld ((end self.old).lists edge) }
        requires unwritten { HasNoWrite ((end self.old).lists edge) }
        ensures change { ChangesAt edge after_give (end self.old) (end self.new) }
        ensures moved { moved self.old self.new };

    ghost moved_same: { (x : Self) → moved x x };

    ghost moved_on: { (x y z : Self) → moved x y → moved y z → moved x z };
}
