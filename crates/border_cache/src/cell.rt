//! A site's atom with the time of its last change.
ghost use Rattle.std.specs.Prelude.{◌≡◌, ◌<◌, Some};
ghost use Rattle.bit_field.specs.Atom.{LeavesGap};
ghost use Rattle.border_cache.specs.Cells.{cell_value, cell_of, newer};

use bit_field::Atom;
use std::marker::Model;

/// An atom and the stamp of the event that left it.
#[derive(Clone, Copy)]
pub(crate) struct Cell {
    stamp: u32,
    atom: Atom,
}

impl Model for Cell {
    ghost use Rattle.border_cache.specs.Cells.{CellValue, cell_value};

    ghost Value = { CellValue };

    ghost view = { λ c. cell_value c.stamp c.atom };

    ghost inverse = { λ c. record { stamp = c.stamp; atom = c.atom } };
}

impl Cell {
    /// The cell of a stamp and an atom.
    pub(crate) fn new(stamp: u32, atom: Atom) -> Cell
        ensures { result ≡ cell_value stamp atom }
    {
        Cell { stamp, atom }
    }

    /// The stamp.
    pub(crate) fn stamp(&self) -> u32
        ensures { result ≡ self.now.stamp }
    {
        self.stamp
    }

    /// The atom.
    pub(crate) fn atom(&self) -> Atom
        ensures { result ≡ self.now.atom }
    {
        self.atom
    }

    /// The cell that the two registers of a shared site represent.
    #[tactic(auto, using(crate::proofs::Words::low_gap))]
    pub(crate) fn from_words(low: u64, high: u64) -> Cell
        requires { LeavesGap high }
        ensures { result ≡ cell_of low high }
    {
        let stamp = (high >> 32) as u32;
        let atom = Atom::from_words(low, (high % (1u64 << 32)) as u32);
        Cell { stamp, atom }
    }

    /// The newer of two cells; this one if both have one stamp.
    pub(crate) fn newer_of(self, other: Cell) -> Cell
        ensures { result ≡ newer self (Some other) }
    {
        if self.stamp < other.stamp {
            other
        } else {
            self
        }
    }

    /// The two registers of a shared site that represent the cell.
    pub(crate) fn words(&self) -> (u64, u64)
        ensures cell { cell_of result.0 result.1 ≡ self.now }
        ensures gap { LeavesGap result.1 }
    {
        let (low, high) = self.atom.to_words();
        (low, u64::from(self.stamp) * (1u64 << 32) + u64::from(high))
    }
}
