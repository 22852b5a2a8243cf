//! Attempts of a tile, taken in order.
ghost use Rattle.std.specs.Prelude.{◌≡◌, ◌+◌, ◌-◌, ◌≤◌, ◌<◌, ◌^◌, length, drop, List, Some};
ghost use Rattle.draw_stream.specs.declared.attempt.Attempt.{Attempt};
ghost use Rattle.report_text.specs.Reading.{first_of};
ghost use Rattle.report_text.specs.Cursors.{last_of, passed_of, Serves};

use draw_stream::{Attempt, Attempts};

/// Passes over this many attempts, or over all of them if there are fewer.
fn pass(stream: &mut Attempts, count: u64)
    ensures { stream.new ≡ drop count stream.old }
{
    for _i in 0..count {
        match stream.next() {
            Some(_) => {}
            None => return,
        }
    }
}

/// The attempt after this many others, if there is one.
fn seek(stream: &mut Attempts, count: u64) -> Option<Attempt>
    ensures value { result ≡ first_of (drop count stream.old) }
    ensures left { stream.new ≡ drop (count + 1) stream.old }
{
    pass(stream, count);
    stream.next()
}

/// How far a report has come in the log of a tile: the tile's attempts that are left, the attempt
/// of its last record, and the line of that record, which is 0 if there is none yet.
#[derive(Drop)]
pub(crate) struct LogCursor {
    pub(crate) stream: Attempts,
    pub(crate) last: u64,
    pub(crate) line: u64,
}

/// How many attempts that were not passed come before this one.
fn between(cursor: &LogCursor, attempt: u64) -> u64
    requires { passed_of cursor.now ≤ attempt }
    ensures { passed_of cursor.now + result ≡ attempt }
{
    if cursor.line == 0 {
        attempt
    } else {
        attempt - cursor.last - 1
    }
}

/// The tile's attempt of this number, if it has one. That attempt was not passed before.
pub(crate) fn seek_attempt(cursor: &mut LogCursor, attempt: u64, line: u64) -> Option<Attempt>
    requires later { passed_of cursor.old ≤ attempt }
    requires line { 1 ≤ line }
    ensures value { (list : List Attempt) → Serves cursor.old list → result ≡ first_of (drop attempt list) }
    ensures left { (list : List Attempt) → Serves cursor.old list → Serves cursor.new list }
    ensures last { last_of cursor.new ≡ Some (line, attempt) }
{
    let count = between(cursor, attempt);
    let found = seek(&mut cursor.stream, count);
    cursor.last = attempt;
    cursor.line = line;
    found
}
