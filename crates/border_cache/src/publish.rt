//! Publishing: the cells of a window are written to the edges that share their sites, and marked
//! there as news for the other end alone.
ghost use Rattle.std.specs.Prelude.{◌≡◌, ◌<◌, ◌≤◌, ℕ, length, All};
ghost use Rattle.std.specs.List.Sorted.{IsStrictlyIncreasing};
ghost use Rattle.edge_lock.specs.EndValues.{SameEnd};
ghost use Rattle.border_cache.specs.Accesses.{AddsSome};
ghost use Rattle.border_cache.specs.Borders.{IsAreaOf, IsBorderOf, IsCentreOf, IsOpen, site_of};
ghost use Rattle.border_cache.specs.News.{AreMasks};
ghost use Rattle.border_cache.specs.Published.{IsPublish, PutsAt};
ghost use Rattle.border_cache.specs.Windows.{border_at, place_in, IsEdgeFor, IsRowRun};
ghost use Rattle.border_cache.specs.Copies.{Published, window_cells};
ghost use Rattle.border_cache.specs.Shared.{IsInRow, IsInRun, IsInWindowOf, IsPlaceOf, IsSharedRun, shared_cell};

use crate::border::{Border, Centre};
use crate::cache::Cache;
use crate::masks::set_run;
use crate::news::{put_bits, put_cell};
use crate::places::{end_of, masks_by_site, place_in, site_at};
use crate::row_runs::{Run, rows_of, run_of};
use edge_lock::Board;
use tile_map::{Area, Map, Needs};

/// Writes the cells of a run at their places.
fn put_run<D: Board>(cache: &Cache, run: Run, border: Border, board: &mut D)
    requires run { IsSharedRun cache.now border.edge run }
    requires border { IsBorderOf cache.now.map border }
    requires hold { IsOpen (D.end board.old) border }
    ensures put { AddsSome border.edge (PutsAt (IsInRun run run.east) (shared_cell cache.now border.edge)) (D.end board.old) (D.end board.new) }
    ensures same { SameEnd (D.end board.old) (D.end board.new) }
    ensures moved { D.moved board.old board.new }
{
    for x in run.west..run.east {
        let place = run.start + (x - run.west);
        put_cell(board, border, place, cache.at(x, run.row));
    }
}

/// Writes the cells of row `j` of a window to an edge whose shared sites are an area, and gives the run
/// of their places.
fn put_row<D: Board>(
    cache: &Cache,
    area: Area,
    centre: Centre,
    j: u32,
    border: Border,
    board: &mut D,
) -> Option<Run>
    requires centre { IsCentreOf cache.now.map cache.now centre }
    requires area { IsAreaOf cache.now.map area border }
    requires j { j < 9 }
    requires hold { IsOpen (D.end board.old) border }
    ensures run { IsRowRun area (site_of centre) j result }
    ensures put { AddsSome border.edge (PutsAt (IsInRow area (site_of centre) j) (shared_cell cache.now border.edge)) (D.end board.old) (D.end board.new) }
    ensures same { SameEnd (D.end board.old) (D.end board.new) }
    ensures moved { D.moved board.old board.new }
{
    let run = run_of(area, centre, j)?;
    put_run(cache, run, border, board);
    Some(run)
}

/// Writes the cells of a window to an edge whose shared sites are an area, row by row, and gives the
/// bits of their places.
fn put_rows<D: Board>(
    cache: &Cache,
    area: Area,
    centre: Centre,
    border: Border,
    board: &mut D,
) -> [u64; 9]
    requires centre { IsCentreOf cache.now.map cache.now centre }
    requires area { IsAreaOf cache.now.map area border }
    requires hold { IsOpen (D.end board.old) border }
    ensures masks { AreMasks (place_in cache.now.map (site_of centre) border.edge) 41 result }
    ensures count { length result ≡ 9 }
    ensures put { AddsSome border.edge (PutsAt (IsInWindowOf cache.now.map (site_of centre) border.edge) (shared_cell cache.now border.edge)) (D.end board.old) (D.end board.new) }
    ensures same { SameEnd (D.end board.old) (D.end board.new) }
    ensures moved { D.moved board.old board.new }
{
    let mut masks = [0; 9];
    let (first, end) = rows_of(area, centre);
    for j in first..end {
        if let Some(run) = put_row(cache, area, centre, j, border, board) {
            set_run(&mut masks, run.start, run.start + (run.east - run.west));
        }
    }
    masks
}

/// Writes the cell of site `n` of a window to an edge, if the edge shares the site.
fn put_site<D: Board>(
    cache: &Cache,
    map: &Map,
    centre: Centre,
    n: u8,
    border: Border,
    board: &mut D,
)
    requires centre { IsCentreOf map.now cache.now centre }
    requires n { n ≤ 40 }
    requires border { IsBorderOf map.now border }
    requires hold { IsOpen (D.end board.old) border }
    ensures put { AddsSome border.edge (PutsAt (IsPlaceOf cache.now.map (site_of centre) border.edge n) (shared_cell cache.now border.edge)) (D.end board.old) (D.end board.new) }
    ensures same { SameEnd (D.end board.old) (D.end board.new) }
    ensures moved { D.moved board.old board.new }
{
    if let Some(place) = place_in(map, border.edge, centre, n) {
        if let Some((u, v)) = site_at(map, centre, n) {
            put_cell(board, border, place, cache.at(u, v));
        }
    }
}

/// Writes the cells of a window to an edge, each at the place that is looked up for its site.
fn put_sites<D: Board>(cache: &Cache, map: &Map, centre: Centre, border: Border, board: &mut D)
    requires centre { IsCentreOf map.now cache.now centre }
    requires border { IsBorderOf map.now border }
    requires hold { IsOpen (D.end board.old) border }
    ensures put { AddsSome border.edge (PutsAt (IsInWindowOf cache.now.map (site_of centre) border.edge) (shared_cell cache.now border.edge)) (D.end board.old) (D.end board.new) }
    ensures same { SameEnd (D.end board.old) (D.end board.new) }
    ensures moved { D.moved board.old board.new }
{
    for n in 0..41u8 {
        put_site(cache, map, centre, n, border, board);
    }
}

/// Writes the cells of a window to an edge, and gives the bits of their places.
fn put_window<D: Board>(
    cache: &Cache,
    map: &Map,
    centre: Centre,
    border: Border,
    board: &mut D,
) -> [u64; 9]
    requires centre { IsCentreOf map.now cache.now centre }
    requires border { IsBorderOf map.now border }
    requires hold { IsOpen (D.end board.old) border }
    ensures masks { AreMasks (place_in map.now (site_of centre) border.edge) 41 result }
    ensures count { length result ≡ 9 }
    ensures put { AddsSome border.edge (PutsAt (IsInWindowOf cache.now.map (site_of centre) border.edge) (shared_cell cache.now border.edge)) (D.end board.old) (D.end board.new) }
    ensures same { SameEnd (D.end board.old) (D.end board.new) }
    ensures moved { D.moved board.old board.new }
{
    map.laws();
    match map.whole_area(border.edge) {
        Some(area) => put_rows(cache, area, centre, border, board),
        None => {
            put_sites(cache, map, centre, border, board);
            masks_by_site(map, border.edge, centre)
        }
    }
}

/// Writes the cells of a window to an edge, and marks them as news for the other end alone.
fn publish_on<D: Board>(cache: &Cache, map: &Map, centre: Centre, edge: u32, board: &mut D)
    requires centre { IsCentreOf map.now cache.now centre }
    requires edge { IsEdgeFor map.now (D.end board.old).registers (D.end board.old).lists edge }
    ensures published { AddsSome edge (IsPublish (border_at cache.now.map cache.now.tile (site_of centre) edge) (window_cells cache.now (site_of centre))) (D.end board.old) (D.end board.new) }
    ensures same { SameEnd (D.end board.old) (D.end board.new) }
    ensures moved { D.moved board.old board.new }
{
    map.laws();
    let sites = map.shared(edge);
    let end = end_of(map, cache.tile(), edge);
    let border = Border { edge, sites, end };
    let masks = put_window(cache, map, centre, border, board);
    put_bits(board, border, &masks);
}

/// Writes the cells of a window to the needed edges.
pub(crate) fn publish_needs<D: Board>(
    cache: &Cache,
    map: &Map,
    centre: Centre,
    needs: &Needs,
    board: &mut D,
)
    requires centre { IsCentreOf map.now cache.now centre }
    requires needs { All (IsEdgeFor map.now (D.end board.old).registers (D.end board.old).lists) needs.now }
    requires rising { IsStrictlyIncreasing needs.now }
    ensures published { Published cache.now (site_of centre) needs.now (D.end board.old) (D.end board.new) }
    ensures same { SameEnd (D.end board.old) (D.end board.new) }
    ensures moved { D.moved board.old board.new }
{
    for i in 0..needs.len() {
        publish_on(cache, map, centre, needs.edge(i), board);
    }
}
