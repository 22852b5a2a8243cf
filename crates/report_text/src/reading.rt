//! What the lines of a report say, one after another.
ghost use Rattle.std.specs.Prelude.{◌≡◌, ◌≤◌, IsOk, length};
ghost use Rattle.text_lines.specs.Fields.{fields};
ghost use Rattle.tile_map.specs.Plane.{tiles_of};
ghost use Rattle.report_text.specs.Reading.{Steps, count_line, fields_step, is_over, put_abandoned, put_sites, record_step, want_abandoned, want_atoms, want_records};
ghost use Rattle.report_text.specs.Cursors.{IsOneMore, StillServe, TakesLine, said_value, wants_value};

use crate::cursors::LogCursor;
use crate::forms::{abandoned_form, count_form, is_atom, is_header, record_form};
use crate::journal_fault::JournalFault;
use crate::placing::record_at;
use cell_grid::Record;
use event_journal::Abandoned;
use tile_map::Map;

/// What the next line has to be, and how many more lines of its kind come after it.
#[derive(Clone, Copy)]
pub(crate) enum Wants {
    Header,
    AtomCount,
    Atoms(u32),
    RecordCount,
    Records(u32),
    AbandonedCount,
    Abandoned(u32),
    Nothing,
}

/// What the lines so far say.
#[derive(Drop)]
pub(crate) struct Reading {
    pub(crate) wants: Wants,
    pub(crate) sites: u32,
    pub(crate) before: Option<Record>,
    pub(crate) cursors: Vec<LogCursor>,
    pub(crate) journal: Vec<Record>,
    pub(crate) gone: Vec<Abandoned>,
}

/// What comes after an atom, if this many more follow.
fn want_atoms(left: u32) -> Wants
    ensures { wants_value result ≡ want_atoms left }
{
    if left == 0 {
        Wants::RecordCount
    } else {
        Wants::Atoms(left - 1)
    }
}

/// What comes after a record, if this many more follow.
fn want_records(left: u32) -> Wants
    ensures { wants_value result ≡ want_records left }
{
    if left == 0 {
        Wants::AbandonedCount
    } else {
        Wants::Records(left - 1)
    }
}

/// What comes after an abandoned attempt, if this many more follow.
fn want_abandoned(left: u32) -> Wants
    ensures { wants_value result ≡ want_abandoned left }
{
    if left == 0 {
        Wants::Nothing
    } else {
        Wants::Abandoned(left - 1)
    }
}

/// Whether nothing more is expected.
pub(crate) fn is_over(wants: Wants) -> bool
    ensures { result ≡ is_over (wants_value wants) }
{
    matches!(wants, Wants::Nothing)
}

/// Takes the count of sites in line `n`, or says why it can't be there.
fn take_sites(n: u64, reading: &mut Reading, count: Option<u32>) -> Result<(), JournalFault>
    ensures steps { Steps n (put_sites (said_value reading.old) count) (said_value reading.new) result }
    ensures one { IsOk result → IsOneMore reading.old reading.new }
    ensures kept { reading.new.cursors ≡ reading.old.cursors }
{
    let Some(sites) = count else {
        return Err(JournalFault::BadLine(n));
    };
    reading.sites = sites;
    reading.wants = want_atoms(sites);
    Ok(())
}

/// Takes the record of line `n`, or says why it can't be there.
#[tactic(auto, unfolding(crate::specs::Reading::record_step))]
fn take_record(
    map: &Map,
    n: u64,
    reading: &mut Reading,
    left: u32,
    entry: Option<Record>,
) -> Result<(), JournalFault>
    requires line { 1 ≤ n }
    requires cursors { length reading.old.cursors.items ≡ tiles_of map.now }
    ensures steps { TakesLine n (λ lists said. record_step map.now lists n said (want_records left) entry) reading.old reading.new result }
    ensures one { IsOk result → IsOneMore reading.old reading.new }
    ensures many { length reading.new.cursors.items ≡ length reading.old.cursors.items }
    ensures serve { IsOk result → StillServe reading.old.cursors.items reading.new.cursors.items }
{
    let Some(r) = entry else {
        return Err(JournalFault::BadLine(n));
    };
    match record_at(map, n, reading.before, &mut reading.cursors, &r) {
        Some(fault) => Err(fault.at(n)),
        None => {
            reading.journal.push(r)?;
            reading.before = Some(r);
            reading.wants = want_records(left);
            Ok(())
        }
    }
}

/// Takes the abandoned attempt of line `n`, or says why it can't be there.
fn take_abandoned(
    n: u64,
    reading: &mut Reading,
    left: u32,
    entry: Option<Abandoned>,
) -> Result<(), JournalFault>
    ensures steps { Steps n (put_abandoned (said_value reading.old) (want_abandoned left) entry) (said_value reading.new) result }
    ensures one { IsOk result → IsOneMore reading.old reading.new }
    ensures kept { reading.new.cursors ≡ reading.old.cursors }
{
    let Some(a) = entry else {
        return Err(JournalFault::BadLine(n));
    };
    reading.gone.push(a)?;
    reading.wants = want_abandoned(left);
    Ok(())
}

/// Takes line `n` as what it has to be, or says why it can't be there.
#[tactic(auto, unfolding(crate::specs::Reading::fields_step))]
pub(crate) fn take_fields(
    map: &Map,
    n: u64,
    reading: &mut Reading,
    text: &[u8],
) -> Result<(), JournalFault>
    requires line { 1 ≤ n }
    requires cursors { length reading.old.cursors.items ≡ tiles_of map.now }
    ensures steps { TakesLine n (λ lists said. fields_step map.now lists n said said.wants (fields text.now)) reading.old reading.new result }
    ensures one { IsOk result → IsOneMore reading.old reading.new }
    ensures many { length reading.new.cursors.items ≡ length reading.old.cursors.items }
    ensures serve { IsOk result → StillServe reading.old.cursors.items reading.new.cursors.items }
{
    let next = match reading.wants {
        Wants::AtomCount => return take_sites(n, reading, count_form(b"atoms", Some(text))),
        Wants::Records(left) => {
            let entry = record_form(Some(text));
            return take_record(map, n, reading, left, entry);
        }
        Wants::Abandoned(left) => return take_abandoned(
            n,
            reading,
            left,
            abandoned_form(Some(text)),
        ),
        Wants::Header if is_header(text) => Some(Wants::AtomCount),
        Wants::Atoms(left) if is_atom(Some(text)) => Some(want_atoms(left)),
        Wants::RecordCount => count_form(b"journal", Some(text)).map(want_records),
        Wants::AbandonedCount => count_form(b"abandoned", Some(text)).map(want_abandoned),
        Wants::Header | Wants::Atoms(_) | Wants::Nothing => None,
    };
    match next {
        Some(wants) => {
            reading.wants = wants;
            Ok(())
        }
        None => Err(JournalFault::BadLine(n)),
    }
}
