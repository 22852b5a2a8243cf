//! The verdict on a report.

use cell_grid::Grid;

/// The verdict of an audit on a report: yes, or the first thing that does not hold.
#[derive(Drop)]
pub enum Verdict {
    /// Each attempt is accounted for, each event has the stamp that its links give, and each
    /// abandoned attempt is excused. This is the grid that the events make of the start.
    Yes(Grid),
    /// Some attempt has no entry, two, or a wrong one, or the entries are not in order.
    NotAccounted,
    /// The event at this position, from 0, is the first whose stamp is not the one that its links
    /// give.
    NotStamped(u64),
    /// The abandoned attempt at this position, from 0, is the first that is not excused.
    NotExcused(u64),
}
