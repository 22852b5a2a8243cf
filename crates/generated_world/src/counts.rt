//! The summary of the run of a generated world.
ghost use Rattle.std.specs.Prelude.{◌≡◌, IfOk, map};
ghost use Rattle.generated_world.specs.Summary.{count_kind, summary_of_logs};
ghost use Rattle.report_text.specs.JournalText.{count_fields};
ghost use Rattle.text_lines.specs.Values.{field_text};

use cell_grid::Grid;
use event_journal::Journal;
use feast_base::NoMemory;
use std::alloc::Global;
use text_lines::{Field, push_line};

/// How many atoms of a grid are of a type.
fn count_kind(grid: &Grid, kind: u16) -> u64
    ensures { result ≡ count_kind kind grid.now }
{
    grid.atoms()
        .iter()
        .filter(|atom| atom.kind() == kind)
        .count() as u64
}

/// The fields of the line of a count, after a word.
fn count_fields(word: &[u8], count: u64) -> [Field<'_>; 2]
    ensures { map field_text result ≡ count_fields word.now count }
{
    [Field::Word(word), Field::Number(count)]
}

/// The summary of what the run of the world of a number left: the number, how many events and
/// abandoned attempts there were, and how many atoms of types 1 and 2, `Wander` and `Stone`, there
/// are at the end. `NoMemory` if there is none for the text.
pub fn summary(
    alloc: Global,
    number: u64,
    grid: &Grid,
    journal: &Journal,
) -> Result<Vec<u8>, NoMemory>
    ensures { IfOk result (λ v. v.items ≡ summary_of_logs number grid.now journal.now) }
{
    let mut text = Vec::new(alloc);
    push_line(&mut text, &count_fields(b"gen", number))?;
    push_line(&mut text, &count_fields(b"records", journal.len()))?;
    push_line(
        &mut text,
        &count_fields(b"abandoned", journal.abandoned_len()),
    )?;
    push_line(&mut text, &count_fields(b"Wander", count_kind(grid, 1)))?;
    push_line(&mut text, &count_fields(b"Stone", count_kind(grid, 2)))?;
    Ok(text)
}
