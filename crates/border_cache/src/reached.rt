//! Windows that may leave the plane, where no tile is off: what the tile reaches has all their live
//! sites then, which are read and marked row by row.
ghost use Rattle.std.specs.Prelude.{◌≡◌, ◌+◌, ◌<◌, IsTrue};
ghost use Rattle.tile_map.specs.Plane.{is_live, is_whole};
ghost use Rattle.border_cache.specs.Borders.{IsCentreOf, site_of};
ghost use Rattle.border_cache.specs.BorderRows.{reach};
ghost use Rattle.border_cache.specs.Reached.{event_cells, window_of, GivesAt, IsInRowAt, IsAboveRow, ShowsAt};
ghost use Rattle.border_cache.specs.Windows.{IsRunOf, IsView};
ghost use Rattle.border_cache.specs.Copies.{Marked, window_cells};

use crate::border::Centre;
use crate::cache::Cache;
use crate::cell::Cell;
use crate::numbers::number_at;
use crate::row_runs::{Run, rows_of, run_of};
use bit_field::Atom;
use window_sites::Window;

/// What is known of a window that is read: the atoms and the live marks of its sites so far.
#[derive(Drop)]
pub(crate) struct Shown {
    pub atoms: [Atom; 41],
    pub live: [bool; 41],
}

/// Gives the sites of a run, which is row `j` of the window at a centre, their atoms of an event's
/// window and a stamp.
fn mark_run(cache: &mut Cache, run: Run, centre: Centre, j: u32, window: &Window, stamp: u32)
    requires centre { IsCentreOf cache.old.map cache.old centre }
    requires whole { IsTrue (is_whole cache.old.map) }
    requires run { IsRunOf (reach cache.old) (site_of centre) j run }
    requires j { j < 9 }
    ensures { GivesAt (IsInRowAt (site_of centre) j) (site_of centre) (event_cells window.now stamp) cache.old cache.new }
{
    for x in run.west..run.east {
        let n = number_at(j, x + 4 - centre.x);
        cache.put(x, run.row, Cell::new(stamp, window.get(n)));
    }
}

/// The same for the sites of row `j` that the tile reaches.
fn mark_row(cache: &mut Cache, centre: Centre, j: u32, window: &Window, stamp: u32)
    requires centre { IsCentreOf cache.old.map cache.old centre }
    requires whole { IsTrue (is_whole cache.old.map) }
    requires j { j < 9 }
    ensures { GivesAt (IsInRowAt (site_of centre) j) (site_of centre) (event_cells window.now stamp) cache.old cache.new }
{
    if let Some(run) = run_of(cache.reach(), centre, j) {
        mark_run(cache, run, centre, j, window, stamp);
    }
}

/// Gives the live sites of the window at a centre their atoms of an event's window and a stamp.
pub(crate) fn mark_reached(cache: &mut Cache, centre: Centre, window: &Window, stamp: u32)
    requires centre { IsCentreOf cache.old.map cache.old centre }
    requires whole { IsTrue (is_whole cache.old.map) }
    ensures { Marked (site_of centre) window.now stamp cache.old cache.new }
{
    let (first, end) = rows_of(cache.reach(), centre);
    for j in first..end {
        mark_row(cache, centre, j, window, stamp);
    }
}

/// Shows the cells of a run, which is row `j` of the window at a centre.
fn show_run(cache: &Cache, run: Run, centre: Centre, j: u32, shown: &mut Shown)
    requires centre { IsCentreOf cache.now.map cache.now centre }
    requires whole { IsTrue (is_whole cache.now.map) }
    requires run { IsRunOf (reach cache.now) (site_of centre) j run }
    requires j { j < 9 }
    requires shown { ShowsAt (IsAboveRow (site_of centre) j) cache.now (site_of centre) (window_of shown.old) }
    ensures { ShowsAt (IsAboveRow (site_of centre) (j + 1)) cache.now (site_of centre) (window_of shown.new) }
{
    for x in run.west..run.east {
        let n = number_at(j, x + 4 - centre.x) as usize;
        shown.atoms[n] = cache.at(x, run.row).atom();
        shown.live[n] = true;
    }
}

/// Shows the cells of row `j` of the window at a centre that the tile reaches.
fn show_row(cache: &Cache, centre: Centre, j: u32, shown: &mut Shown)
    requires centre { IsCentreOf cache.now.map cache.now centre }
    requires whole { IsTrue (is_whole cache.now.map) }
    requires j { j < 9 }
    requires shown { ShowsAt (IsAboveRow (site_of centre) j) cache.now (site_of centre) (window_of shown.old) }
    ensures { ShowsAt (IsAboveRow (site_of centre) (j + 1)) cache.now (site_of centre) (window_of shown.new) }
{
    if let Some(run) = run_of(cache.reach(), centre, j) {
        show_run(cache, run, centre, j, shown);
    }
}

/// The window at a site, as a tile's cells show it, read row by row.
pub(crate) fn view_reached(cache: &Cache, centre: Centre) -> Window
    requires centre { IsCentreOf cache.now.map cache.now centre }
    requires whole { IsTrue (is_whole cache.now.map) }
    requires live { IsTrue (is_live cache.now.map (site_of centre)) }
    ensures { IsView cache.now.map (site_of centre) (window_cells cache.now (site_of centre)) result }
{
    let mut shown = Shown {
        atoms: [Atom::new(0, 0); 41],
        live: [false; 41],
    };
    let (first, end) = rows_of(cache.reach(), centre);
    for j in first..end {
        show_row(cache, centre, j, &mut shown);
    }
    Window::new(shown.atoms, shown.live)
}
