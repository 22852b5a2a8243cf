//! What holds of all that is put into a report: its numbers and atoms are ones that can be stored.
ghost use Rattle.std.specs.Prelude.{◌≡◌, All, length};
ghost use Rattle.bit_field.specs.Atom.{IsAtom};
ghost use Rattle.report_text.specs.OneReport.{AreAbandonedWords, AreRecordWords, AreWords, IsReported};
ghost use Rattle.report_text.specs.Report.{AreNamed, of_logs};

use bit_field::Atom;
use cell_grid::{Grid, Record};
use event_journal::{Abandoned, Journal, TileLog};
use feast_base::Name;

/// What holds of an atom that is stored.
fn atom_fits(atom: &Atom)
    ensures { IsAtom atom.now }
{
    // The proof takes the bounds from this reading.
    let _kind = atom.kind();
    let _state = atom.state();
}

/// What holds of atoms that are stored.
fn atoms_fit(atoms: &[Atom])
    ensures { All IsAtom atoms.now }
{
    for atom in atoms {
        atom_fits(atom);
    }
}

/// What holds of an event that is stored.
fn event_fits(event: Record)
    ensures { AreRecordWords event }
{
    // The proof takes the bounds from this reading.
    let _stamp = event.stamp;
}

/// What holds of events that are stored.
fn records_fit(records: &[Record])
    ensures { All AreRecordWords records.now }
{
    for event in records {
        event_fits(*event);
    }
}

/// What holds of an abandoned attempt that is stored.
fn entry_fits(entry: Abandoned)
    ensures { AreAbandonedWords entry }
{
    // The proof takes the bounds from this reading.
    let _edge = entry.edge;
}

/// What holds of abandoned attempts that are stored.
fn entries_fit(entries: &[Abandoned])
    ensures { All AreAbandonedWords entries.now }
{
    for entry in entries {
        entry_fits(*entry);
    }
}

/// How many sites there are.
fn sites(atoms: &[Atom]) -> usize
    ensures { result ≡ length atoms.now }
{
    atoms.len()
}

/// What holds of a log.
fn log_fits(log: &TileLog)
    ensures { AreWords log.now }
{
    records_fit(log.records());
    entries_fit(log.abandoned());
}

/// What holds of the logs of a journal.
fn logs_fit(journal: &Journal)
    ensures { All AreWords journal.now }
{
    for tile in 0..journal.tiles() {
        log_fits(journal.log(tile));
    }
}

/// What holds of a grid and a journal whose report is written.
pub(crate) fn is_reported(grid: &Grid, journal: &Journal, names: &[Name])
    requires { AreNamed names.now grid.now.atoms }
    ensures { IsReported names.now (of_logs grid.now journal.now) }
{
    // The proof takes the bounds of each number from the call that reads it.
    let _width = grid.width();
    let atoms = grid.atoms();
    let _sites = sites(atoms);
    atoms_fit(atoms);
    logs_fit(journal);
    journal.laws();
    let _records = journal.len();
    let _abandoned = journal.abandoned_len();
}
