//! What is left of a text behind its first lines.
ghost use Rattle.std.specs.Prelude.{◌≡◌, ◌≤◌, length};
ghost use Rattle.report_text.specs.GridPart.{LeavesLines};

use text_lines::next_ended;

/// What comes behind this many first lines of a text, each of which has its LF. Nothing if the text has
/// fewer.
pub(crate) fn after_lines(bytes: &[u8], count: u64) -> &[u8]
    ensures left { LeavesLines bytes.now count result.now }
    ensures shorter { length result.now ≤ length bytes.now }
{
    let mut left = bytes;
    for _line in 0..count {
        match next_ended(left) {
            Some((_, rest)) => left = rest,
            None => return left,
        }
    }
    left
}
