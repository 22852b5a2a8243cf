//! Why a text is not a journal.
ghost use Rattle.std.specs.Prelude.{◌≡◌, Some};
ghost use Rattle.report_text.specs.Reading.{fault_of};

use feast_base::NoMemory;
use std::alloc::{AllocError, AllocFailed};

/// Why a text is not a journal, with the number of the line, from 1.
#[derive(Clone, Copy)]
pub enum JournalFault {
    /// A line does not have the form that is due, a count does not agree, a line is missing, or
    /// there is one too many (80). If a line is missing, the number is that of the line after the
    /// last.
    BadLine(u64),
    /// A record does not come after that of the line before it, by stamp and then tile, or the
    /// attempt of its tile's last record is not smaller (81). The second number is the line of that
    /// other record, or 0 if the first record has the stamp 0.
    OutOfOrder(u64, u64),
    /// There is no such tile, or it does not own the site (82).
    NotOwned(u64),
    /// The tile has no attempt of this number, or that attempt has another centre or seed (83).
    NotDrawn(u64),
    /// Memory ran out.
    NoMemory,
}

/// What is wrong with a line.
#[derive(Clone, Copy)]
pub enum LineFault {
    /// It does not have the form that is due.
    BadForm,
    /// Its record is out of order with that of the line of this number, or it is a first record
    /// with the stamp 0; the number is then 0.
    OutOfTurn(u64),
    /// Its site is not one of its tile's.
    ElsewhereThanTile,
    /// It is not one of its tile's attempts.
    OtherThanAttempt,
}

impl LineFault {
    /// This fault at a line.
    pub(crate) fn at(self, line: u64) -> JournalFault
        ensures { fault_of result ≡ Some (line, self) }
    {
        match self {
            LineFault::BadForm => JournalFault::BadLine(line),
            LineFault::OutOfTurn(previous) => JournalFault::OutOfOrder(line, previous),
            LineFault::ElsewhereThanTile => JournalFault::NotOwned(line),
            LineFault::OtherThanAttempt => JournalFault::NotDrawn(line),
        }
    }
}

impl From<AllocError> for JournalFault {
    ghost use Rattle.std.specs.Prelude.{◌≡◌};
    ghost use Rattle.report_text.specs.declared.journal_fault.JournalFault.TheVariants.{NoMemory as no_memory};

    ghost from_gives = { λ _ e. e ≡ no_memory };

    fn from(_refused: AllocError) -> JournalFault {
        JournalFault::NoMemory
    }
}

impl<T: Drop> From<AllocFailed<T>> for JournalFault {
    ghost use Rattle.std.specs.Prelude.{◌≡◌};
    ghost use Rattle.report_text.specs.declared.journal_fault.JournalFault.TheVariants.{NoMemory as no_memory};

    ghost from_gives = { λ _ e. e ≡ no_memory };

    fn from(_refused: AllocFailed<T>) -> JournalFault {
        JournalFault::NoMemory
    }
}

impl From<NoMemory> for JournalFault {
    ghost use Rattle.std.specs.Prelude.{◌≡◌};
    ghost use Rattle.report_text.specs.declared.journal_fault.JournalFault.TheVariants.{NoMemory as no_memory};

    ghost from_gives = { λ _ e. e ≡ no_memory };

    fn from(_refused: NoMemory) -> JournalFault {
        JournalFault::NoMemory
    }
}
