//! The lines of a text, and the fields of a line.
ghost use Rattle.std.specs.Prelude.{◌≡◌, ◌∷◌, ◌++◌, ◌+◌, ◌<◌, [], MatchOption, IfSome, length};
ghost use Rattle.text_lines.specs.Fields.{Lacks, fields, fields_left};
ghost use Rattle.text_lines.specs.Lines.{BeginsWith, ended_lines, is_skipped, lines, without_cr};

/// The bytes before the first `end`, and those after it.
fn until(bytes: &[u8], end: u8) -> Option<(&[u8], &[u8])>
    ensures { MatchOption result (Lacks bytes.now end) (λ r. Lacks r.0.now end × (bytes.now ≡ r.0.now ++ end ∷ r.1.now)) }
{
    let at = bytes.iter().position(|b| *b == end)?;
    Some((&bytes[..at], &bytes[at + 1..]))
}

/// The first field of a line, and the text of the others if a space follows it.
pub fn first_field(text: &[u8]) -> (&[u8], Option<&[u8]>)
    ensures fields { fields text.now ≡ result.0.now ∷ fields_left result.1 }
    ensures shorter { IfSome result.1 (λ rest. length rest.now < length text.now) }
{
    match until(text, b' ') {
        Some((first, rest)) => (first, Some(rest)),
        None => (text, None),
    }
}

/// A line without one CR at its end.
#[tactic(auto, unfolding(crate::specs::Lines::without_cr))]
fn without_cr(line: &[u8]) -> &[u8]
    ensures { result.now ≡ without_cr line.now }
{
    let len = line.len();
    if len > 0 && line[len - 1] == b'\r' {
        &line[..len - 1]
    } else {
        line
    }
}

/// The first line of a text whose last line may lack its LF, and the bytes after it. A CR before
/// the LF is dropped. None exactly for the empty text.
pub fn next_line(bytes: &[u8]) -> Option<(&[u8], &[u8])>
    ensures { MatchOption result (bytes.now ≡ []) (λ r. BeginsWith lines bytes.now r.0.now r.1.now) }
{
    if bytes.is_empty() {
        return None;
    }
    match until(bytes, b'\n') {
        Some((line, rest)) => Some((without_cr(line), rest)),
        None => Some((bytes, &bytes[..0])),
    }
}

/// The first line of a text that is not empty and each of whose lines has its LF, and the bytes
/// after it. None exactly when no LF is left.
pub fn next_ended(bytes: &[u8]) -> Option<(&[u8], &[u8])>
    ensures { MatchOption result (Lacks bytes.now 10) (λ r. BeginsWith ended_lines bytes.now (Some r.0.now) r.1.now) }
{
    match until(bytes, b'\n') {
        Some((line, rest)) => Some((line, rest)),
        None => None,
    }
}

/// Whether a line is skipped: it is empty, or begins with `#`.
pub fn is_skipped(line: &[u8]) -> bool
    ensures { result ≡ is_skipped line.now }
{
    match line {
        [first, ..] => *first == b'#',
        [] => true,
    }
}
