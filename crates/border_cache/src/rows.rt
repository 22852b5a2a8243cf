//! Stamping a window that lies wholly inside a rectangle of stamps, row by row.
//!
//! The rectangle holds its stamps row by row, `width` of them in a row. The window's nine rows and
//! nine columns start at index `low`, and its sites in a row are one run. Each row has a line of its
//! own, so that its run has a fixed length.
ghost use Rattle.std.specs.Prelude.{◌≡◌, ◌+◌, ◌*◌, ◌<◌, ◌≤◌, length};
ghost use Rattle.border_cache.specs.Rows.{AreStamped, StampsRun};
ghost use Rattle.window_sites.specs.declared.window.TheConstants.{MOST_COLUMNS};

/// Gives `count` places from `first` on a stamp.
#[inline]
pub(crate) fn stamp_run(stamps: &mut [u32], first: usize, count: usize, stamp: u32)
    requires inside { first + count ≤ length stamps.old }
    ensures run { StampsRun first count stamp stamps.old stamps.new }
    ensures size { length stamps.new ≡ length stamps.old }
{
    stamps[first..first + count].fill(stamp);
}

/// Gives the 41 sites of a window a stamp.
#[inline]
pub(crate) fn stamp_rows(stamps: &mut [u32], low: usize, width: usize, stamp: u32)
    requires small { width ≤ MOST_COLUMNS }
    requires whole { low + 8 * width + 8 < length stamps.old }
    ensures stamped { AreStamped low width stamp stamps.old stamps.new }
    ensures size { length stamps.new ≡ length stamps.old }
{
    stamp_run(stamps, low + 0 * width + 4, 1, stamp);
    stamp_run(stamps, low + 1 * width + 3, 3, stamp);
    stamp_run(stamps, low + 2 * width + 2, 5, stamp);
    stamp_run(stamps, low + 3 * width + 1, 7, stamp);
    stamp_run(stamps, low + 4 * width + 0, 9, stamp);
    stamp_run(stamps, low + 5 * width + 1, 7, stamp);
    stamp_run(stamps, low + 6 * width + 2, 5, stamp);
    stamp_run(stamps, low + 7 * width + 3, 3, stamp);
    stamp_run(stamps, low + 8 * width + 4, 1, stamp);
}
