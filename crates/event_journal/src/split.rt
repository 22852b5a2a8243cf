//! The records that come first, moved to a merge of their own.
ghost use Rattle.std.specs.Prelude.{◌≡◌, ◌++◌, [], AllPairs, length};
ghost use Rattle.event_journal.specs.Keys.{IsCut};
ghost use Rattle.event_journal.specs.Logs.{RisesTo, is_before};
ghost use Rattle.event_journal.specs.Merged.{merged};

use crate::merge::Merge;
use cell_grid::Record;

/// A number that is greater than any stamp.
const NO_STAMP: u64 = 1 << 32;

/// The records of a log with stamps below this one, and the others.
fn cut(left: &[Record], stamp: u64) -> (&[Record], &[Record])
    requires { AllPairs RisesTo left.now }
    ensures { IsCut stamp left.now result.0.now result.1.now }
{
    left.split_at(left.partition_point(|record| u64::from(record.stamp) < stamp))
}

/// The greatest number such that no log has more than `most` records with stamps below it, up to one
/// that is greater than any stamp.
fn cut_stamp(merge: &Merge<'_>, most: usize) -> u64 {
    let mut stamp = NO_STAMP;
    for k in 0..merge.logs() {
        if let Some(next) = merge.left(k).get(most) {
            stamp = stamp.min(u64::from(next.stamp));
        }
    }
    stamp
}

/// Moves the records with stamps below this one to another merge of as many logs, and drops what it
/// had.
fn split_below<'a>(merge: &mut Merge<'a>, front: &mut Merge<'a>, stamp: u64)
    requires { length front.old ≡ length merge.old }
    ensures { merged is_before merge.old ≡ merged is_before front.new ++ merged is_before merge.new }
{
    merge.laws();
    for k in 0..merge.logs() {
        let (below, above) = cut(merge.left(k), stamp);
        front.set_left(k, below);
        merge.set_left(k, above);
    }
    front.laws();
    merge.laws();
}

/// Drops the records that are left.
fn close(merge: &mut Merge<'_>)
    ensures { merged is_before merge.new ≡ [] }
{
    for k in 0..merge.logs() {
        merge.set_left(k, &[]);
    }
}

/// Moves the records that come first to another merge, at most `most` of each log, and drops what
/// it had. Moves none if that is not of as many logs.
pub(crate) fn split_front<'a>(merge: &mut Merge<'a>, front: &mut Merge<'a>, most: usize)
    ensures { merged is_before merge.old ≡ merged is_before front.new ++ merged is_before merge.new }
{
    if front.logs() == merge.logs() {
        let stamp = cut_stamp(merge, most);
        split_below(merge, front, stamp);
    } else {
        close(front);
    }
}
