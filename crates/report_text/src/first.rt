//! Reports in a row.
ghost use Rattle.std.specs.Prelude.{◌≡◌, ◌≤◌, ◌+◌, ◌∷◌, ◌++◌, MatchOption, None, Some, length};
ghost use Rattle.text_lines.specs.Fields.{Lacks};
ghost use Rattle.text_lines.specs.Lines.{ended_lines};
ghost use Rattle.report_text.specs.First.{IsBehind, IsCounted, behind_line, count_in, first_lines, first_report, later_reports, lines_counted};

use crate::forms::count_form;
use text_lines::next_ended;

/// The first of some reports in a row, and those behind it.
pub struct FirstReport<'a> {
    /// Its bytes: as many lines as its counts say, or all that there are if its counts can't be read.
    pub report: &'a [u8],
    /// How many lines it has. 0 if its counts can't be read.
    pub lines: u64,
    /// The bytes of the reports behind it.
    pub later: &'a [u8],
}

/// The bytes before the first LF, and those after it.
fn at_lf(bytes: &[u8]) -> Option<(&[u8], &[u8])>
    ensures { MatchOption result (Lacks bytes.now 10) (λ r. Lacks r.0.now 10 × (bytes.now ≡ r.0.now ++ 10 ∷ r.1.now)) }
{
    let at = bytes.iter().position(|b| *b == b'\n')?;
    Some((&bytes[..at], &bytes[at + 1..]))
}

/// What is behind the first line of a text.
fn behind_line(bytes: &[u8]) -> &[u8]
    ensures left { result.now ≡ behind_line bytes.now }
    ensures shorter { length result.now ≤ length bytes.now }
{
    match at_lf(bytes) {
        Some((_, rest)) => rest,
        None => &bytes[..0],
    }
}

/// What is behind this many first lines of a text.
fn behind_lines(bytes: &[u8], count: u64) -> &[u8]
    ensures { IsBehind count bytes.now result.now }
{
    let mut left = bytes;
    for _line in 0..count {
        if left.is_empty() {
            return left;
        }
        left = behind_line(left);
    }
    left
}

/// The count behind this word in the first line of a text, if that line is such a count.
fn first_count(word: &[u8], bytes: &[u8]) -> Option<u32>
    ensures { result ≡ count_in word.now (ended_lines bytes.now) 0 }
{
    match next_ended(bytes) {
        Some((text, _)) => count_form(word, Some(text)),
        None => None,
    }
}

/// The count behind this word in the first line of a text, and what is behind that line and as many more.
fn counted<'a>(word: &[u8], bytes: &'a [u8]) -> Option<(u32, &'a [u8])>
    ensures { MatchOption result (IsCounted word.now bytes.now None) (λ r. IsCounted word.now bytes.now (Some r.0) × IsBehind (r.0 + 1) bytes.now r.1.now) }
{
    let count = first_count(word, bytes)?;
    Some((count, behind_lines(bytes, u64::from(count) + 1)))
}

/// How many lines the first report has, if its counts can be read, and what is behind these.
fn lines_counted(bytes: &[u8]) -> Option<(u64, &[u8])>
    ensures { MatchOption result (lines_counted (ended_lines bytes.now) ≡ None) (λ r. (lines_counted (ended_lines bytes.now) ≡ Some r.0) × IsBehind r.0 bytes.now r.1.now) }
{
    let (atoms, left) = counted(b"atoms", behind_line(bytes))?;
    let (records, left) = counted(b"journal", left)?;
    let (abandoned, left) = counted(b"abandoned", left)?;
    let lines = u64::from(atoms) + u64::from(records) + u64::from(abandoned) + 4;
    Some((lines, left))
}

/// The first of some reports in a row. It is not read: only its counts are.
#[tactic(auto, using(crate::proofs::Firsts::first_whole), unfolding(crate::specs::First::later_reports))]
pub fn first_report(bytes: &[u8]) -> FirstReport<'_>
    ensures report { result.report.now ≡ first_report bytes.now }
    ensures lines { result.lines ≡ first_lines bytes.now }
    ensures later { result.later.now ≡ later_reports bytes.now }
{
    let Some((lines, later)) = lines_counted(bytes) else {
        return FirstReport {
            report: bytes,
            lines: 0,
            later: &bytes[..0],
        };
    };
    FirstReport {
        report: &bytes[..bytes.len() - later.len()],
        lines,
        later,
    }
}
