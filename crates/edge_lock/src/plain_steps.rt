//! The steps on the words of a plain edge: what its one seat knows, the rule that all steps keep,
//! and what each kind of step reveals. The registers are no words of its table.
ghost use Rattle.std.specs.Prelude.{◌≡◌, []};
ghost use Rattle.edge_lock.specs.EndLists.{with_access};
ghost use Rattle.edge_lock.specs.PlainEdges.{IsKept, MayNote, plain_view_after_change};

use crate::history::{Hold, Refusal, Said};
use atomic_table::{Play, Seat, Table, TableRule};
use std::alloc::Global;
use std::collections::LinkedList;
use std::marker::PhantomData;

/// How many words the table has: the base's own, the lock and the notes.
pub(crate) const WORDS: usize = 3;

/// The word that is only loaded. Each load of it adds an access to the open hold.
pub(crate) const NOTES: usize = 2;

/// What the one seat of a plain edge knows: the number of registers, the holds of both ends, and
/// the refusals of each. No value of it is made.
pub struct PlainView {
    /// The number of registers.
    pub registers: u32,
    /// The holds of both ends, in order.
    pub holds: LinkedList<Hold>,
    /// The refusals of end 0.
    pub low: LinkedList<Refusal>,
    /// The refusals of end 1.
    pub high: LinkedList<Refusal>,
}

/// The rule of a plain edge's table. Its key is the number of registers, which the first view has.
pub struct PlainRule;

impl TableRule<(), PlainView, u32> for PlainRule {
    ghost use Rattle.edge_lock.specs.PlainEdges.{IsPlain, plain_view};
    ghost use Rattle.std.specs.Prelude.{[]};

    ghost holds = { λ registers. IsPlain };

    ghost first = { λ registers. plain_view registers [] [] [] };
}

/// The exchange of a try, won or lost.
pub struct PlainTry;

impl Play<(), PlainView> for PlainTry {
    ghost use Rattle.edge_lock.specs.PlainEdges.{PlainTries};

    ghost then = { PlainTries };
}

/// The store that ends a hold.
pub struct PlainGive;

impl Play<(), PlainView> for PlainGive {
    ghost use Rattle.edge_lock.specs.PlainEdges.{PlainGives};

    ghost then = { PlainGives };
}

/// The load that adds an access to the open hold.
pub struct PlainNote<B>(PhantomData<B>);

impl<B: Said> Play<(), PlainView> for PlainNote<B> {
    ghost use Rattle.edge_lock.specs.PlainEdges.{PlainNotes};

    ghost then = { PlainNotes B.access };
}

/// Adds an access to the open hold: a read of what the register has, or a write that it allows. The
/// code does not need to know which; the caller's proof picks it, of this register and value.
#[inline]
pub(crate) fn note_access<B: Said>(
    table: &Table<(), PlainView, u32, PlainRule, Global>,
    seat: &mut Seat<(), PlainView>,
    _register: u32,
    _value: u64,
)
    requires seat { (seat.old.table_id ≡ table.now.shared.table_id) × (seat.old.me.1 ≡ []) }
    requires words { table.now.shared.table_id.words ≡ 3 }
    requires may { MayNote B.access seat.old.me.0 }
    ensures same { seat.new.table_id ≡ seat.old.table_id }
    ensures now { seat.new.me ≡ (plain_view_after_change (with_access B.access) seat.old.me.0, []) }
    ensures kept { IsKept seat.new.me.0 }
{
    table.shared.load::<PlainNote<B>>(seat, NOTES);
}
