//! Whether a record is one of its tile's attempts.
ghost use Rattle.std.specs.Prelude.{◌≡◌, ◌*◌, ◌≤◌, ◌<◌, ◌+◌, IfSome, List, None, Option, Some, [], length, not, slice_index_or, slice_set, if◌then◌else◌};
ghost use Rattle.cell_grid.specs.declared.record.Record.{Record};
ghost use Rattle.draw_stream.specs.declared.attempt.Attempt.{Attempt};
ghost use Rattle.tile_map.specs.Plane.{tiles_of};
ghost use Rattle.report_text.specs.Reading.{is_at_home, is_attempt, is_behind, line_before, not_later, attempt_fault, record_fault};
ghost use Rattle.report_text.specs.Cursors.{ForServed, Serves, StillServe, last_in, last_of, lasts_of, passed_of};
ghost use Rattle.report_text.specs.declared.journal_fault.LineFault.TheVariants.{ElsewhereThanTile, OutOfTurn};

use crate::cursors::{LogCursor, seek_attempt};
use crate::journal_fault::LineFault;
use cell_grid::Record;
use draw_stream::Attempt;
use tile_map::Map;

/// Whether a record comes after the previous one, or may be the first.
fn is_behind(before: Option<Record>, r: &Record) -> bool
    ensures { result ≡ is_behind before r.now }
{
    match before {
        None => r.stamp >= 1,
        Some(p) => p.stamp < r.stamp || (p.stamp == r.stamp && p.tile < r.tile),
    }
}

/// The line of the previous record, or 0 if there is none.
fn line_before(n: u64, before: Option<Record>) -> u64
    requires { 1 ≤ n }
    ensures { result ≡ line_before n before }
{
    match before {
        None => 0,
        Some(_) => n - 1,
    }
}

/// Whether the site of a record lies in its tile's rectangle.
fn is_at_home(map: &Map, r: &Record) -> bool
    ensures { result ≡ is_at_home map.now r.now }
{
    r.x < map.width() && r.y < map.height() && map.owner(r.x, r.y) == r.tile
}

/// Whether a record is this attempt of its tile, which exists.
fn is_attempt(map: &Map, attempt: Option<Attempt>, r: &Record) -> bool
    requires tile { r.now.tile < tiles_of map.now }
    ensures { result ≡ is_attempt map.now attempt r.now }
{
    match attempt {
        None => false,
        Some(a) => {
            if a.centre >= map.tile_sites() {
                return false;
            }
            let (x, y) = map.site_of(r.tile, a.centre);
            x == r.x && y == r.y && a.seed == r.seed
        }
    }
}

/// The line of the tile's last record, if the attempt of that record is not smaller than this one.
fn not_later(cursor: &LogCursor, attempt: u64) -> Option<u64>
    ensures value { result ≡ not_later (last_of cursor.now) attempt }
    ensures passed { result ≡ None → passed_of cursor.now ≤ attempt }
{
    if cursor.line == 0 || cursor.last < attempt {
        None
    } else {
        Some(cursor.line)
    }
}

/// The fault of a record whose site is not its tile's, or that is not one of its tile's attempts.
/// The tile exists.
fn attempt_fault(map: &Map, n: u64, cursor: &mut LogCursor, r: &Record) -> Option<LineFault>
    requires tile { r.now.tile < tiles_of map.now }
    requires line { 1 ≤ n }
    requires later { passed_of cursor.old ≤ r.now.attempt }
    ensures fault { (list : List Attempt) → Serves cursor.old list → result ≡ attempt_fault map.now list r.now }
    ensures serves { result ≡ None → (list : List Attempt) → Serves cursor.old list → Serves cursor.new list }
    ensures last { result ≡ None → last_of cursor.new ≡ Some (n, r.now.attempt) }
{
    if !is_at_home(map, r) {
        return Some(LineFault::ElsewhereThanTile);
    }
    let found = seek_attempt(cursor, r.attempt, n);
    if is_attempt(map, found, r) {
        None
    } else {
        Some(LineFault::OtherThanAttempt)
    }
}

/// The fault of the record of line `n`, whose tile exists. If there is none, the tile's cursor has
/// passed its attempt.
#[tactic(auto, unfolding(crate::specs::Reading::record_fault))]
fn record_fault(
    map: &Map,
    n: u64,
    before: Option<Record>,
    cursor: &mut LogCursor,
    r: &Record,
) -> Option<LineFault>
    requires tile { r.now.tile < tiles_of map.now }
    requires line { 1 ≤ n }
    ensures fault { (list : List Attempt) → Serves cursor.old list → result ≡ record_fault map.now n before (last_of cursor.old) list r.now }
    ensures serves { result ≡ None → (list : List Attempt) → Serves cursor.old list → Serves cursor.new list }
    ensures last { result ≡ None → last_of cursor.new ≡ Some (n, r.now.attempt) }
{
    if !is_behind(before, r) {
        return Some(LineFault::OutOfTurn(line_before(n, before)));
    }
    match not_later(cursor, r.attempt) {
        Some(line) => Some(LineFault::OutOfTurn(line)),
        None => attempt_fault(map, n, cursor, r),
    }
}

/// The fault of the record of line `n`, whose tile does not exist.
fn no_tile(n: u64, before: Option<Record>, r: &Record) -> LineFault
    requires { 1 ≤ n }
    ensures { result ≡ (if not (is_behind before r.now) then OutOfTurn (line_before n before) else ElsewhereThanTile) }
{
    if is_behind(before, r) {
        LineFault::ElsewhereThanTile
    } else {
        LineFault::OutOfTurn(line_before(n, before))
    }
}

/// The fault of the record of line `n`. If there is none, the tile's cursor has passed its attempt.
pub(crate) fn record_at(
    map: &Map,
    n: u64,
    before: Option<Record>,
    cursors: &mut Vec<LogCursor>,
    r: &Record,
) -> Option<LineFault>
    requires line { 1 ≤ n }
    requires cursors { length cursors.old.items ≡ tiles_of map.now }
    ensures fault { ForServed cursors.old.items (λ lists.
        result ≡ record_fault map.now n before (last_in cursors.old.items r.now.tile) (slice_index_or lists r.now.tile []) r.now) }
    ensures serve { result ≡ None → StillServe cursors.old.items cursors.new.items }
    ensures many { length cursors.new.items ≡ length cursors.old.items }
    ensures last { result ≡ None →
        lasts_of cursors.new.items ≡ slice_set (lasts_of cursors.old.items) r.now.tile (Some (n, r.now.attempt)) }
{
    if r.tile >= map.tiles() {
        return Some(no_tile(n, before, r));
    }
    record_fault(map, n, before, &mut cursors[r.tile as usize], r)
}
