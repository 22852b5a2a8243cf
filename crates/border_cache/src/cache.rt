//! A tile's copy of the sites that it holds.
ghost use Rattle.std.specs.Prelude.{◌≡◌, ◌+◌, ◌<◌, ◌≤◌, ℕ, length, IsTrue, IsSome, IfOk, IfSome};
ghost use Rattle.bit_field.specs.Atom.{empty_atom};
ghost use Rattle.tile_map.specs.Plane.{IsMap, site, tiles_of, is_held, is_whole};
ghost use Rattle.tile_map.specs.Tables.{IsSmall};
ghost use Rattle.tile_map.specs.Edges.{window_site, needs_of};
ghost use Rattle.cell_grid.specs.Grid.{site_atom};
ghost use Rattle.window_sites.specs.Window.{atom_at};
ghost use Rattle.edge_lock.specs.EndLists.{IsHeld};
ghost use Rattle.edge_lock.specs.EndValues.{SameEnd};
ghost use Rattle.border_cache.specs.Borders.{IsCentreOf, site_of};
ghost use Rattle.border_cache.specs.BorderRows.{reach, StampsRow};
ghost use Rattle.border_cache.specs.Cells.{cell_value};
ghost use Rattle.border_cache.specs.Windows.{has, has_corners, IsView, IsWhole};
ghost use Rattle.border_cache.specs.Shared.{Renews};
ghost use Rattle.plane_grid.specs.PlaneGrids.{IsGridOf};
ghost use Rattle.border_cache.specs.Copies.{IsFirstCopy, patch, AreAtomsIn, IsCentre, IsEndOf, Puts, PutsFor, at, Refreshed, Published, Marked, Stamped, IsCorner, place_held, held_cell, window_cells};
ghost use Rattle.tile_map.specs.declared.limits.TheConstants.{MOST_REACH};
ghost use Rattle.window_sites.specs.declared.window.TheConstants.{MOST_COLUMNS};

use crate::border::Centre;
use crate::cell::Cell;
use crate::cells::Cells;
use crate::places::{is_whole, site_at};
use crate::publish::publish_needs;
use crate::reached::{mark_reached, view_reached};
use crate::refresh::refresh_needs;
use crate::row_runs::run_of;
use crate::view::view_of;
use bit_field::Atom;
use cell_grid::Grid;
use edge_lock::Board;
use feast_base::NoMemory;
use std::alloc::Global;
use std::marker::Model;
use tile_map::{Area, Map, Needs, Plane, Span};
use window_sites::Window;

/// A cell for each site that a tile holds: its atom, and the stamp of the event that left it.
///
/// The cache keeps the numbers of the map that it was made with. Each call that takes a map takes
/// that one, and a centre that is live and in the tile's own rectangle.
#[derive(Drop)]
pub struct Cache {
    plane: Plane,
    tile: u32,
    left: u32,
    top: u32,
    width: u32,
    height: u32,
    cells: Cells,
}

impl Model for Cache {
    ghost use Rattle.border_cache.specs.Copies.{CacheValue, cache_of, IsCopy};

    ghost Value = { CacheValue };

    ghost view = { λ c. cache_of c.plane c.tile c.cells };

    ghost invariant = { λ c. IsCopy (cache_of c.plane c.tile c.cells) c.left c.top c.width c.height };
}

impl Cache {
    /// The cells of a tile at the start: each has stamp 0 and the grid's atom. The grid has the
    /// size and the live sites of the map's plane. All its memory is allocated here.
    pub fn new(alloc: Global, map: &Map, tile: u32, start: &Grid) -> Result<Cache, NoMemory>
        requires tile { tile < tiles_of map.now }
        requires start { IsGridOf map.now start.now }
        ensures { IfOk result (λ c. IsFirstCopy map.now tile start.now c) }
    {
        let plane = map.plane(alloc)?;
        let (left, right) = map.columns(tile);
        let (top, bottom) = map.rows(tile);
        let width = right - left;
        let height = bottom - top;
        let atoms = first_atoms(alloc, start, left, top, width, height)?;
        let stamps = Vec::from_elem(alloc, 0u32, (width * height) as usize)?;
        Ok(Cache {
            plane,
            tile,
            left,
            top,
            width,
            height,
            cells: Cells::new(stamps, atoms),
        })
    }

    /// The stamp and the atom of a site that the tile holds.
    pub fn cell(&self, x: u32, y: u32) -> (u32, Atom)
        requires { IsTrue (is_held self.now.map self.now.tile (site x y)) }
        ensures { cell_value result.0 result.1 ≡ held_cell self.now (site x y) }
    {
        let cell = self.at(x, y);
        (cell.stamp(), cell.atom())
    }

    /// Brings the live sites of the window at a centre up to date: each then has the newest of its
    /// own cell and of the cells of the needed edges that share it and have news of it for this
    /// tile. At equal stamps its own cell stays. It reads no other cell of an edge.
    pub fn refresh<D: Board>(&mut self, map: &Map, x: u32, y: u32, needs: &Needs, board: &mut D)
        requires map { map.now ≡ self.old.map }
        requires centre { IsCentre self.old.map self.old.tile (site x y) }
        requires needs { needs.now ≡ needs_of self.old.map self.old.tile (site x y) }
        requires board { IsEndOf self.old.map self.old.tile (D.end board.old) }
        requires held { (e : ℕ) → IsTrue (has e needs.now) → IsHeld ((D.end board.old).lists e) }
        ensures refreshed { Refreshed (site x y) needs.now (at self.old (D.end board.old)) (at self.new (D.end board.new)) }
        ensures same { SameEnd (D.end board.old) (D.end board.new) }
        ensures moved { D.moved board.old board.new }
    {
        map.laws();
        if needs.len() == 0 {
            return;
        }
        refresh_needs(self, map, Centre { x, y }, needs, board);
    }

    /// The window at a centre, as the cells of its live sites show it.
    pub fn window(&self, map: &Map, x: u32, y: u32) -> Window
        requires map { map.now ≡ self.now.map }
        requires centre { IsCentre self.now.map self.now.tile (site x y) }
        ensures { IsView self.now.map (site x y) (window_cells self.now (site x y)) result }
    {
        let mut window = Window::empty();
        self.read_window(map, x, y, &mut window);
        window
    }

    /// Reads the window at a centre into a window that is there: keep one to read many.
    pub fn read_window(&self, map: &Map, x: u32, y: u32, window: &mut Window)
        requires map { map.now ≡ self.now.map }
        requires centre { IsCentre self.now.map self.now.tile (site x y) }
        ensures { IsView self.now.map (site x y) (window_cells self.now (site x y)) window.new }
    {
        map.laws();
        match self.corner(map, x, y) {
            Some(low) => self.cells.read_window(low, self.width as usize, window),
            None if map.is_whole() => *window = view_reached(self, Centre { x, y }),
            None => *window = view_of(map, self, Centre { x, y }),
        }
    }

    /// Gives each live site of the window at a centre its atom of an event's window and the event's
    /// stamp. All other cells stay.
    pub fn mark(&mut self, map: &Map, x: u32, y: u32, window: &Window, stamp: u32)
        requires map { map.now ≡ self.old.map }
        requires centre { IsCentre self.old.map self.old.tile (site x y) }
        ensures { Marked (site x y) window.now stamp self.old self.new }
    {
        map.laws();
        match self.corner(map, x, y) {
            Some(low) => self.cells.mark(low, self.width as usize, window, stamp),
            None if map.is_whole() => mark_reached(self, Centre { x, y }, window, stamp),
            None => self.mark_sites(map, Centre { x, y }, window, stamp),
        }
    }

    /// Gives each live site of the window at a centre the event's stamp. Each keeps its atom, and
    /// all other cells stay.
    pub fn stamp(&mut self, map: &Map, x: u32, y: u32, stamp: u32)
        requires map { map.now ≡ self.old.map }
        requires centre { IsCentre self.old.map self.old.tile (site x y) }
        ensures { Stamped (site x y) stamp self.old self.new }
    {
        map.laws();
        match self.corner(map, x, y) {
            Some(low) => self.cells.stamp(low, self.width as usize, stamp),
            None if map.is_whole() => self.stamp_reached(map, Centre { x, y }, stamp),
            None => self.stamp_sites(map, Centre { x, y }, stamp),
        }
    }

    /// Writes the cell of each live site of the window at a centre to each needed edge that shares
    /// the site, with its news bit 0 for this tile and 1 for the other. All other registers and
    /// bits stay.
    pub fn publish<D: Board>(&self, map: &Map, x: u32, y: u32, needs: &Needs, board: &mut D)
        requires map { map.now ≡ self.now.map }
        requires centre { IsCentre self.now.map self.now.tile (site x y) }
        requires needs { needs.now ≡ needs_of self.now.map self.now.tile (site x y) }
        requires board { IsEndOf self.now.map self.now.tile (D.end board.old) }
        requires held { (e : ℕ) → IsTrue (has e needs.now) → IsHeld ((D.end board.old).lists e) }
        ensures published { Published self.now (site x y) needs.now (D.end board.old) (D.end board.new) }
        ensures same { SameEnd (D.end board.old) (D.end board.new) }
        ensures moved { D.moved board.old board.new }
    {
        map.laws();
        if needs.len() == 0 {
            return;
        }
        publish_needs(self, map, Centre { x, y }, needs, board);
    }

    /// The tile.
    pub(crate) fn tile(&self) -> u32
        ensures { result ≡ self.now.tile }
    {
        self.tile
    }

    /// The cell of a site that the tile holds.
    pub(crate) fn at(&self, x: u32, y: u32) -> Cell
        requires { IsTrue (is_held self.now.map self.now.tile (site x y)) }
        ensures { result ≡ held_cell self.now (site x y) }
    {
        self.cells.get(self.index(x, y))
    }

    /// Gives a site that the tile holds the newer of its own cell and another; its own if both have
    /// one stamp.
    pub(crate) fn renew(&mut self, x: u32, y: u32, found: Cell)
        requires { IsTrue (is_held self.old.map self.old.tile (site x y)) }
        ensures { Renews (site x y) found self.old self.new }
    {
        self.put(x, y, self.at(x, y).newer_of(found));
    }

    /// The place of a site that the tile holds.
    fn index(&self, x: u32, y: u32) -> usize
        requires { IsTrue (is_held self.now.map self.now.tile (site x y)) }
        ensures value { result ≡ place_held self.now.map self.now.tile (site x y) }
        ensures inside { result < length self.now.cells }
    {
        ((y - self.top) * self.width + (x - self.left)) as usize
    }

    /// Whether a site is 8 or more inside what the tile reaches. That ends at most 4 outside the
    /// tile's own rectangle, so the site's window lies in the rectangle then.
    fn has_own_window(&self, x: u32, y: u32) -> bool
        requires { IsTrue (is_held self.now.map self.now.tile (site x y)) }
        ensures { IsTrue result → IsWhole self.now.map (site x y) }
    {
        let column = x - self.left;
        let row = y - self.top;
        if column < 8 || row < 8 {
            return false;
        }
        column + 8 < self.width && row + 8 < self.height
    }

    /// Whether the tile's own rectangle, or else the four corners around a centre, tell that all
    /// sites of the window there are live.
    fn is_all_live(&self, map: &Map, x: u32, y: u32) -> bool
        requires map { map.now ≡ self.now.map }
        requires valid { IsMap map.now }
        requires centre { IsCentre self.now.map self.now.tile (site x y) }
        requires held { IsTrue (is_held self.now.map self.now.tile (site x y)) }
        ensures whole { IsTrue result → IsWhole self.now.map (site x y) }
        ensures found { IsTrue (has_corners self.now.map (site x y)) → IsTrue result }
    {
        self.has_own_window(x, y) || is_whole(map, Centre { x, y })
    }

    /// The place at which the nine rows and nine columns around a centre start, if `is_all_live`
    /// tells that all sites of its window are live.
    fn corner(&self, map: &Map, x: u32, y: u32) -> Option<usize>
        requires map { map.now ≡ self.now.map }
        requires centre { IsCentre self.now.map self.now.tile (site x y) }
        ensures low { IfSome result (λ low. IsCorner self.now (site x y) low) }
        ensures found { IsTrue (has_corners self.now.map (site x y)) → IsSome result }
    {
        map.laws();
        if self.is_all_live(map, x, y) {
            Some(((y - 4 - self.top) * self.width + (x - 4 - self.left)) as usize)
        } else {
            None
        }
    }

    /// The cell of site `n` of the window at a centre.
    fn cell_around(&self, map: &Map, centre: Centre, n: u8) -> Cell
        requires centre { IsCentreOf map.now self.now centre }
        requires n { n ≤ 40 }
        ensures { result ≡ window_cells self.now (site_of centre) n }
    {
        match site_at(map, centre, n) {
            Some((u, v)) => self.cells.get(self.index(u, v)),
            None => Cell::new(0, Atom::new(0, 0)),
        }
    }

    /// Gives each live site of the window at a centre its atom of an event's window and a stamp.
    fn mark_sites(&mut self, map: &Map, centre: Centre, window: &Window, stamp: u32)
        requires centre { IsCentreOf map.now self.old centre }
        ensures { Marked (site_of centre) window.now stamp self.old self.new }
    {
        for n in 0..41u8 {
            self.put_around(map, centre, n, Cell::new(stamp, window.get(n)));
        }
    }

    /// Gives the live sites of the window at a centre a stamp. Each keeps its atom.
    fn stamp_sites(&mut self, map: &Map, centre: Centre, stamp: u32)
        requires centre { IsCentreOf map.now self.old centre }
        ensures { Stamped (site_of centre) stamp self.old self.new }
    {
        for n in 0..41u8 {
            let cell = self.cell_around(map, centre, n);
            self.put_around(map, centre, n, Cell::new(stamp, cell.atom()));
        }
    }

    /// The same on a plane without a tile that is off, row by row of what the tile reaches.
    fn stamp_reached(&mut self, map: &Map, centre: Centre, stamp: u32)
        requires centre { IsCentreOf map.now self.old centre }
        requires whole { IsTrue (is_whole map.now) }
        ensures { Stamped (site_of centre) stamp self.old self.new }
    {
        for j in 0..9u32 {
            self.stamp_row(centre, j, stamp);
        }
    }

    /// Gives the sites of row `j` of the window at a centre that the tile reaches a stamp.
    fn stamp_row(&mut self, centre: Centre, j: u32, stamp: u32)
        requires x { centre.x < MOST_COLUMNS }
        requires y { centre.y < MOST_COLUMNS }
        requires j { j < 9 }
        ensures { StampsRow (site_of centre) j stamp self.old self.new }
    {
        if let Some(run) = run_of(self.reach(), centre, j) {
            let count = run.east - run.west;
            self.cells
                .stamp_run(run.start as usize, count as usize, stamp);
        }
    }

    /// The columns and rows that the tile reaches.
    pub(crate) fn reach(&self) -> Area
        ensures value { result ≡ reach self.now }
        ensures small { IsSmall result }
    {
        Area {
            columns: Span {
                first: self.left,
                end: self.left + self.width,
            },
            rows: Span {
                first: self.top,
                end: self.top + self.height,
            },
        }
    }

    /// Gives site `n` of the window at a centre a cell, if the site is live.
    fn put_around(&mut self, map: &Map, centre: Centre, n: u8, cell: Cell)
        requires centre { IsCentreOf map.now self.old centre }
        requires n { n ≤ 40 }
        ensures { PutsFor (window_site self.old.map (site_of centre) n) cell self.old self.new }
    {
        if let Some((u, v)) = site_at(map, centre, n) {
            self.put(u, v, cell);
        }
    }

    /// Gives a site that the tile holds a cell.
    pub(crate) fn put(&mut self, x: u32, y: u32, cell: Cell)
        requires { IsTrue (is_held self.old.map self.old.tile (site x y)) }
        ensures { Puts (site x y) cell self.old self.new }
    {
        let index = self.index(x, y);
        self.cells.set(index, cell);
    }
}

/// The atoms of a rectangle of a grid, row by row.
fn first_atoms(
    alloc: Global,
    start: &Grid,
    left: u32,
    top: u32,
    width: u32,
    height: u32,
) -> Result<Vec<Atom>, NoMemory>
    requires narrow { width ≤ MOST_REACH }
    requires short { height ≤ MOST_REACH }
    requires left { left ≤ MOST_COLUMNS }
    requires top { top ≤ MOST_COLUMNS }
    requires columns { left + width ≤ start.now.width }
    requires rows { top + height ≤ start.now.height }
    ensures { IfOk result (λ v. AreAtomsIn start.now (patch left top width height) v.items) }
{
    let mut atoms = Vec::with_capacity(alloc, (width * height) as usize)?;
    let (first, end) = (left as usize, (left + width) as usize);
    for y in top..top + height {
        atoms.extend_from_slice(&start.row(y)[first..end])?;
    }
    Ok(atoms)
}
