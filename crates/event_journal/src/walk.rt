//! The walk through the records of a journal.
ghost use Rattle.std.specs.Prelude.{◌≡◌, ◌==◌, ◌++◌, IfOk, length, map};
ghost use Rattle.std.specs.Iterator.{YieldsFirst, item_count};
ghost use Rattle.event_journal.specs.Keys.{AreOwn};
ghost use Rattle.event_journal.specs.Logs.{is_before, records_of};
ghost use Rattle.event_journal.specs.Merged.{merged};
ghost use Rattle.event_journal.specs.Walks.{rest_of};

use crate::log::TileLog;
use crate::merge::Merge;
use crate::split::split_front;
use cell_grid::Record;
use feast_base::NoMemory;
use std::alloc::Global;

/// The records of a journal that have not been given yet.
#[derive(Drop)]
pub struct Walk<'a> {
    merge: Merge<'a>,
}

impl<'a> Walk<'a> {
    /// The walk through the records of these logs, log t of tile t. `NoMemory` if there is none for
    /// what it keeps.
    pub(crate) fn new(alloc: Global, logs: &'a [TileLog]) -> Result<Walk<'a>, NoMemory>
        requires { AreOwn (map records_of logs.now) }
        ensures { IfOk result (λ w. rest_of w ≡ merged is_before (map records_of logs.now)) }
    {
        Ok(Walk {
            merge: Merge::new(alloc, logs)?,
        })
    }

    /// Whether all records have been given.
    pub fn is_over(&self) -> bool
        ensures { result ≡ (length (rest_of self.now) == 0) }
    {
        self.merge.is_over()
    }

    /// Moves the records that come first to another walk through the same journal, whose own are
    /// dropped. So the two walks, one after the other, give what this one would have given. Takes no
    /// memory. How many are moved is in no clause: those with stamps below a number such that each
    /// tile gives at most `most`, and some tile just as many if it has them; and none to a walk
    /// through the logs of more or fewer tiles.
    pub fn split_front(&mut self, front: &mut Walk<'a>, most: usize)
        ensures { rest_of self.old ≡ rest_of front.new ++ rest_of self.new }
    {
        split_front(&mut self.merge, &mut front.merge, most);
    }
}

impl Iterator for Walk<'_> {
    type Item = Record;

    ghost next_gives = { YieldsFirst rest_of };

    ghost remaining = { item_count rest_of };

    /// The next record in the order of the journal; None exactly when all have been given.
    fn next(&mut self) -> Option<Record> {
        self.merge.take()
    }
}
