//! The rows of a window in an area, as runs of places.
ghost use Rattle.std.specs.Prelude.{◌<◌};
ghost use Rattle.tile_map.specs.Tables.{IsSmall};
ghost use Rattle.border_cache.specs.Borders.{site_of};
ghost use Rattle.border_cache.specs.Windows.{AreRowsOf, IsRowRun};
ghost use Rattle.window_sites.specs.declared.window.TheConstants.{MOST_COLUMNS};

use crate::border::Centre;
use tile_map::Area;

/// The sites of one row of a window that an area has. They are one run of columns, and one of
/// places.
#[derive(Clone, Copy)]
pub(crate) struct Run {
    /// The row.
    pub row: u32,
    /// The first column.
    pub west: u32,
    /// One more than the last column.
    pub east: u32,
    /// The place of the site in the first column.
    pub start: u32,
}

/// The first row of the window at a site that an area has, counted from the north, and one more than
/// the last.
#[inline]
pub(crate) fn rows_of(area: Area, centre: Centre) -> (u32, u32)
    requires small { IsSmall area }
    requires y { centre.y < MOST_COLUMNS }
    ensures { AreRowsOf area (site_of centre) result.0 result.1 }
{
    let first = area.rows.first.min(area.rows.end);
    let end = area.rows.end + 4;
    (
        (first + 4).saturating_sub(centre.y),
        end.saturating_sub(centre.y).min(9),
    )
}

/// The run of row `j` of the window at a site, counted from the north, or `None` if the area has no
/// site of it.
#[inline]
pub(crate) fn run_of(area: Area, centre: Centre, j: u32) -> Option<Run>
    requires small { IsSmall area }
    requires x { centre.x < MOST_COLUMNS }
    requires y { centre.y < MOST_COLUMNS }
    requires j { j < 9 }
    ensures { IsRowRun area (site_of centre) j result }
{
    let row = (centre.y + j).checked_sub(4)?;
    if row < area.rows.first || area.rows.end <= row {
        return None;
    }
    let reach = j.min(8 - j);
    let west = area.columns.first.max(centre.x.saturating_sub(reach));
    let east = area.columns.end.min(centre.x + reach + 1);
    if east <= west {
        return None;
    }
    let width = area.columns.end - area.columns.first;
    let start = (row - area.rows.first) * width + (west - area.columns.first);
    Some(Run {
        row,
        west,
        east,
        start,
    })
}
