//! Refreshing: the cells of a window that are news on an edge are read there, and the newer ones
//! are taken.

ghost use Rattle.std.specs.Prelude.{◌≡◌, ◌<◌, ◌≤◌, length, All, Some, IsTrue};
ghost use Rattle.std.specs.List.Sorted.{IsStrictlyIncreasing};
ghost use Rattle.tile_map.specs.Plane.{site, IsMap, is_held};
ghost use Rattle.edge_lock.specs.EndValues.{SameEnd};
ghost use Rattle.border_cache.specs.Accesses.{AddsSome};
ghost use Rattle.border_cache.specs.Borders.{IsAreaOf, IsBorderOf, IsCentreOf, IsOpen, site_of};
ghost use Rattle.border_cache.specs.Windows.{edge_place, IsEdgeFor};
ghost use Rattle.border_cache.specs.Copies.{Refreshed, Refreshes, at};
ghost use Rattle.border_cache.specs.Shared.{IsInRow, IsInRun, IsInWindowOf, IsPlaceOf, IsSharedRun, TakesNews};

use crate::border::{Border, Centre, News};
use crate::cache::Cache;
use crate::masks::{are_clear, are_clear_in};
use crate::news::{read_news, read_site};
use crate::places::{end_of, masks_of, place_in, site_at};
use crate::row_runs::{Run, rows_of, run_of};
use edge_lock::Board;
use tile_map::{Area, Map, Needs};

/// Brings the cell of a site up to date, if its place is news.
fn refresh_place<D: Board>(
    cache: &mut Cache,
    x: u32,
    y: u32,
    place: u32,
    news: &News,
    board: &mut D,
)
    requires owned { IsTrue (is_held cache.old.map cache.old.tile (site x y)) }
    requires shared { edge_place cache.old.map news.now.border.edge (site x y) ≡ Some place }
    requires place { place < news.now.border.sites }
    requires count { length news.now.words ≡ 9 }
    requires hold { IsOpen (D.end board.old) news.now.border }
    ensures read { AddsSome news.now.border.edge (TakesNews news.now (λ k. k ≡ place) cache.old cache.new) (D.end board.old) (D.end board.new) }
    ensures same { SameEnd (D.end board.old) (D.end board.new) }
    ensures moved { D.moved board.old board.new }
{
    if let Some(found) = read_site(board, news, place) {
        cache.renew(x, y, found);
    }
}

/// Brings the cells of a run up to date with the news.
fn refresh_run<D: Board>(cache: &mut Cache, run: Run, news: &News, board: &mut D)
    requires valid { IsMap cache.old.map }
    requires run { IsSharedRun cache.old news.now.border.edge run }
    requires border { IsBorderOf cache.old.map news.now.border }
    requires count { length news.now.words ≡ 9 }
    requires hold { IsOpen (D.end board.old) news.now.border }
    ensures read { AddsSome news.now.border.edge (TakesNews news.now (IsInRun run run.east) cache.old cache.new) (D.end board.old) (D.end board.new) }
    ensures same { SameEnd (D.end board.old) (D.end board.new) }
    ensures moved { D.moved board.old board.new }
{
    for x in run.west..run.east {
        let place = run.start + (x - run.west);
        refresh_place(cache, x, run.row, place, news, board);
    }
}

/// Brings the cells of row `j` of a window up to date with the news on an edge whose shared sites are
/// an area.
fn refresh_row<D: Board>(
    cache: &mut Cache,
    area: Area,
    centre: Centre,
    j: u32,
    news: &News,
    board: &mut D,
)
    requires centre { IsCentreOf cache.old.map cache.old centre }
    requires area { IsAreaOf cache.old.map area news.now.border }
    requires j { j < 9 }
    requires count { length news.now.words ≡ 9 }
    requires hold { IsOpen (D.end board.old) news.now.border }
    ensures read { AddsSome news.now.border.edge (TakesNews news.now (IsInRow area (site_of centre) j) cache.old cache.new) (D.end board.old) (D.end board.new) }
    ensures same { SameEnd (D.end board.old) (D.end board.new) }
    ensures moved { D.moved board.old board.new }
{
    if let Some(run) = run_of(area, centre, j) {
        if !are_clear_in(&news.words, run.start, run.start + (run.east - run.west)) {
            refresh_run(cache, run, news, board);
        }
    }
}

/// Brings the cells of a window up to date with the news on an edge whose shared sites are an area.
fn refresh_rows<D: Board>(cache: &mut Cache, area: Area, centre: Centre, news: &News, board: &mut D)
    requires centre { IsCentreOf cache.old.map cache.old centre }
    requires area { IsAreaOf cache.old.map area news.now.border }
    requires count { length news.now.words ≡ 9 }
    requires hold { IsOpen (D.end board.old) news.now.border }
    ensures read { AddsSome news.now.border.edge (TakesNews news.now (IsInWindowOf cache.old.map (site_of centre) news.now.border.edge) cache.old cache.new) (D.end board.old) (D.end board.new) }
    ensures same { SameEnd (D.end board.old) (D.end board.new) }
    ensures moved { D.moved board.old board.new }
{
    let (first, end) = rows_of(area, centre);
    for j in first..end {
        refresh_row(cache, area, centre, j, news, board);
    }
}

/// Brings the cell of site `n` of a window up to date, if it is news.
fn refresh_site<D: Board>(
    cache: &mut Cache,
    map: &Map,
    centre: Centre,
    n: u8,
    news: &News,
    board: &mut D,
)
    requires centre { IsCentreOf map.now cache.old centre }
    requires n { n ≤ 40 }
    requires border { IsBorderOf map.now news.now.border }
    requires count { length news.now.words ≡ 9 }
    requires hold { IsOpen (D.end board.old) news.now.border }
    ensures read { AddsSome news.now.border.edge (TakesNews news.now (IsPlaceOf cache.old.map (site_of centre) news.now.border.edge n) cache.old cache.new) (D.end board.old) (D.end board.new) }
    ensures same { SameEnd (D.end board.old) (D.end board.new) }
    ensures moved { D.moved board.old board.new }
{
    if let Some(place) = place_in(map, news.border.edge, centre, n) {
        if let Some((u, v)) = site_at(map, centre, n) {
            refresh_place(cache, u, v, place, news, board);
        }
    }
}

/// Brings the cells of a window up to date with the news, each at the place that is looked up for
/// its site.
fn refresh_sites<D: Board>(cache: &mut Cache, map: &Map, centre: Centre, news: &News, board: &mut D)
    requires centre { IsCentreOf map.now cache.old centre }
    requires border { IsBorderOf map.now news.now.border }
    requires count { length news.now.words ≡ 9 }
    requires hold { IsOpen (D.end board.old) news.now.border }
    ensures read { AddsSome news.now.border.edge (TakesNews news.now (IsInWindowOf cache.old.map (site_of centre) news.now.border.edge) cache.old cache.new) (D.end board.old) (D.end board.new) }
    ensures same { SameEnd (D.end board.old) (D.end board.new) }
    ensures moved { D.moved board.old board.new }
{
    for n in 0..41u8 {
        refresh_site(cache, map, centre, n, news, board);
    }
}

/// Brings the cells of a window up to date with the news.
fn take_news<D: Board>(cache: &mut Cache, map: &Map, centre: Centre, news: &News, board: &mut D)
    requires centre { IsCentreOf map.now cache.old centre }
    requires border { IsBorderOf map.now news.now.border }
    requires count { length news.now.words ≡ 9 }
    requires hold { IsOpen (D.end board.old) news.now.border }
    ensures read { AddsSome news.now.border.edge (TakesNews news.now (IsInWindowOf cache.old.map (site_of centre) news.now.border.edge) cache.old cache.new) (D.end board.old) (D.end board.new) }
    ensures same { SameEnd (D.end board.old) (D.end board.new) }
    ensures moved { D.moved board.old board.new }
{
    map.laws();
    match map.whole_area(news.border.edge) {
        Some(area) => refresh_rows(cache, area, centre, news, board),
        None => refresh_sites(cache, map, centre, news, board),
    }
}

/// Brings the cells of a window up to date with the news on an edge. Where there is none, no cell is
/// read.
fn refresh_on<D: Board>(cache: &mut Cache, map: &Map, centre: Centre, edge: u32, board: &mut D)
    requires centre { IsCentreOf map.now cache.old centre }
    requires edge { IsEdgeFor map.now (D.end board.old).registers (D.end board.old).lists edge }
    ensures refreshes { Refreshes (site_of centre) edge (at cache.old (D.end board.old)) (at cache.new (D.end board.new)) }
    ensures same { SameEnd (D.end board.old) (D.end board.new) }
    ensures moved { D.moved board.old board.new }
{
    map.laws();
    let sites = map.shared(edge);
    let end = end_of(map, cache.tile(), edge);
    let border = Border { edge, sites, end };
    let masks = masks_of(map, edge, centre);
    let news = read_news(board, border, &masks);
    if are_clear(&news.words) {
        return;
    }
    take_news(cache, map, centre, &news, board);
}

/// Brings the cells of a window up to date with the news on the needed edges.
pub(crate) fn refresh_needs<D: Board>(
    cache: &mut Cache,
    map: &Map,
    centre: Centre,
    needs: &Needs,
    board: &mut D,
)
    requires centre { IsCentreOf map.now cache.old centre }
    requires needs { All (IsEdgeFor map.now (D.end board.old).registers (D.end board.old).lists) needs.now }
    requires rising { IsStrictlyIncreasing needs.now }
    ensures refreshed { Refreshed (site_of centre) needs.now (at cache.old (D.end board.old)) (at cache.new (D.end board.new)) }
    ensures same { SameEnd (D.end board.old) (D.end board.new) }
    ensures moved { D.moved board.old board.new }
{
    for i in 0..needs.len() {
        refresh_on(cache, map, centre, needs.edge(i), board);
    }
}
