//! The atomic steps on the table of a shared edge: what a seat knows, the rule that all steps keep,
//! and what each kind of step reveals to the end that makes it.
//!
//! The table has one slot, with the registers. It is out with the seat of the end that has the
//! edge, which reads and writes it as plain memory. A load of a word that never changes tells the
//! rule of each read and write.
ghost use Rattle.std.specs.Prelude.{◌≡◌};
ghost use Rattle.edge_lock.specs.SharedRule.{HasEdge, CanNote, IsNoted, now_in};

use crate::history::{Hold, Refusal, Said};
use crate::registers::Registers;
use atomic_table::{Join, Play, Seat, Shared, Split, TableRule};
use std::collections::LinkedList;
use std::marker::PhantomData;

/// The word that says who has the edge.
pub(crate) const LOCK: usize = 1;

/// The word that counts the ends that are claimed.
pub(crate) const CLAIMS: usize = 2;

/// The word that is loaded at each read and write of a register. It is never written. Idle words lie
/// before and behind it, two lines of a processor's cache: otherwise tries of the other end, or what
/// is next in memory, would take its line away all the time.
pub(crate) const NOTES: usize = 18;

/// How many words the table of a shared edge has.
pub(crate) const WORDS: usize = 35;

/// The slot with the registers.
pub(crate) const REGISTERS: usize = 0;

/// What a seat at an edge's table knows. Up to the join it begins with the number of registers.
/// No value of it is made.
pub enum View {
    /// The only seat, with no end yet.
    First(u32),
    /// The only seat, with end 0.
    Alone(u32),
    /// The other seat, beside end 0, with no end yet.
    Second(u32),
    /// One of two seats: its end, its holds and its refusals, and what the registers have, which
    /// holds good only while the end has the edge.
    Paired(u32, u64, LinkedList<Hold>, LinkedList<Refusal>, LinkedList<u64>),
    /// The holds and refusals of both ends, as they were joined.
    Joined(u32, LinkedList<Hold>, LinkedList<Refusal>, LinkedList<Hold>, LinkedList<Refusal>),
    /// The one history of both ends, with the refusals of each, and what the registers have.
    Settled(LinkedList<Hold>, LinkedList<Refusal>, LinkedList<Refusal>, LinkedList<u64>),
    /// The seat that a join has spent.
    Spent,
}

/// The rule of an edge's table. Its key is the number of registers.
pub struct EdgeRule;

impl TableRule<Registers, View, u32> for EdgeRule {
    ghost use Rattle.edge_lock.specs.SharedRule.{IsShared};
    ghost use Rattle.edge_lock.specs.declared.edge_steps.View.TheVariants.{First};

    ghost holds = { IsShared };

    ghost first = { λ registers. First registers };
}

/// An end is claimed.
pub struct Claim;

impl Play<Registers, View> for Claim {
    ghost use Rattle.edge_lock.specs.SharedRule.{Claims};

    ghost then = { Claims };
}

/// The exchange of a try, won or lost. Who wins takes the registers.
pub struct Try;

impl Play<Registers, View> for Try {
    ghost use Rattle.edge_lock.specs.SharedRule.{Tries};

    ghost then = { Tries };
}

/// The load at a read or write of a register in a hold.
pub struct Note<B> {
    marker: PhantomData<B>,
}

impl<B: Said> Play<Registers, View> for Note<B> {
    ghost then = { λ step me word next. IsNoted B.access me next };
}

/// Tells the rule that the end read or wrote a register, by a load that gives nothing.
#[inline]
pub(crate) fn note_access<B: Said>(
    table: &Shared<Registers, View, u32, EdgeRule>,
    seat: &mut Seat<Registers, View>,
    _register: u32,
    _value: u64,
)
    requires table { (seat.old.table_id ≡ table.now.table_id) × (table.now.table_id.words ≡ 35) }
    requires held { HasEdge table.now.key seat.old.me.0 }
    requires can { CanNote table.now.key (now_in seat.old.me.0) B.access }
    ensures table { seat.new.table_id ≡ seat.old.table_id }
    ensures noted { IsNoted B.access seat.old.me seat.new.me }
{
    table.load::<Note<B>>(seat, NOTES);
}

/// The store that ends a hold and puts the registers back.
pub struct Give;

impl Play<Registers, View> for Give {
    ghost use Rattle.edge_lock.specs.SharedRule.{GivesBack};

    ghost then = { GivesBack };
}

/// How the two seats of an edge are split and joined again.
pub struct Ends;

impl Split<View> for Ends {
    ghost use Rattle.edge_lock.specs.SharedRule.{low_view, high_view};

    ghost left = { low_view };

    ghost right = { high_view };
}

impl Join<View> for Ends {
    ghost use Rattle.edge_lock.specs.SharedRule.{both_of};
    ghost use Rattle.edge_lock.specs.declared.edge_steps.View.TheVariants.{Spent};

    ghost both = { both_of };

    ghost spent = { Spent };
}

/// The first load after the join, which takes the registers.
pub struct Settle;

impl Play<Registers, View> for Settle {
    ghost use Rattle.edge_lock.specs.SharedRule.{Settles};

    ghost then = { Settles };
}
