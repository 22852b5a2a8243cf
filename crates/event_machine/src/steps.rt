//! Steps that are counted, and the ledgers that note them.
ghost use Rattle.std.specs.Prelude.{◌≡◌};
ghost use Rattle.feast_base.specs.Counting.{next_count};

use std::marker::Model;

/// Takes a note of each step.
///
/// Its meaning `noted` relates two of its values if one note leads from the first to the second.
pub trait Ledger {
    ghost noted: { Self → Self → Type 0 };

    /// Takes one note.
    fn note(&mut self)
        ensures { noted self.old self.new };
}

/// A ledger that keeps nothing.
#[derive(Clone, Copy, Debug)]
pub struct NoLedger;

impl Ledger for NoLedger {
    ghost noted = { λ old new. new ≡ old };

    fn note(&mut self) {}
}

/// A ledger that counts its notes. The count stays at 2^64 - 1 once it gets there.
#[derive(Drop)]
pub struct CountLedger {
    notes: u64,
}

impl Model for CountLedger {
    ghost use Rattle.std.specs.Prelude.{ℕ};

    ghost Value = { ℕ };

    ghost view = { λ l. l.notes };
}

impl CountLedger {
    /// A ledger without a note.
    pub fn new() -> CountLedger
        ensures { result ≡ 0 }
    {
        CountLedger { notes: 0 }
    }

    /// How many notes it took.
    pub fn count(&self) -> u64
        ensures { result ≡ self.now }
    {
        self.notes
    }
}

impl Ledger for CountLedger {
    ghost noted = { λ old new. new ≡ next_count old };

    fn note(&mut self) {
        self.notes = self.notes.saturating_add(1);
    }
}

/// A number of steps, each of which was noted in a ledger.
///
/// It is seen as the number and the ledger. The number stays at 2^64 - 1 once it gets there.
#[derive(Drop)]
pub struct Steps<L: Ledger> {
    count: u64,
    ledger: L,
}

impl<L: Ledger> Model for Steps<L> {
    ghost use Rattle.event_machine.specs.Counting.{Counted};

    ghost Value = { Counted L };

    ghost view = { λ s. record { count = s.count; ledger = s.ledger } };
}

impl<L: Ledger> Steps<L> {
    /// No step yet, with this ledger.
    pub fn new(ledger: L) -> Steps<L>
        ensures { result ≡ record { count = 0; ledger = ledger } }
    {
        Steps { count: 0, ledger }
    }

    /// Counts one step more, and notes it once.
    pub fn tick(&mut self)
        ensures count { self.new.count ≡ next_count self.old.count }
        ensures noted { L.noted self.old.ledger self.new.ledger }
    {
        self.count = self.count.saturating_add(1);
        self.ledger.note();
    }

    /// The number of steps.
    pub(crate) fn count(&self) -> u64
        ensures { result ≡ self.now.count }
    {
        self.count
    }

    /// Notes one step more and returns the number of steps with it, where `count` is the number
    /// before it. The number kept here stays as it is.
    pub(crate) fn tick_after(&mut self, count: u64) -> u64
        ensures count { result ≡ next_count count }
        ensures noted { L.noted self.old.ledger self.new.ledger }
    {
        self.ledger.note();
        count.saturating_add(1)
    }

    /// Sets the number of steps.
    pub(crate) fn set_count(&mut self, count: u64)
        ensures { self.new ≡ record self.old { count = count } }
    {
        self.count = count;
    }

    /// The ledger.
    pub fn into_ledger(self) -> L
        ensures { result ≡ self.ledger }
    {
        self.ledger
    }
}
