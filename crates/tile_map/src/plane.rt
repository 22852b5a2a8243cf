//! The plane: its tiles, which of them are on, and what a tile owns and holds.

ghost use Rattle.std.specs.Prelude.{◌≡◌, ◌+◌, ◌*◌, ◌/◌, ◌%◌, ◌<◌, ◌≤◌, not, IsTrue, IfOk};
ghost use Rattle.std.specs.List.{list_all};
ghost use Rattle.tile_map.specs.Plane.{MapValue, IsMap, plane_of, site, tiles_of, is_on, is_whole, is_live, owner_of, is_owned, is_held};
ghost use Rattle.tile_map.specs.Neighbours.{are_joined};
ghost use Rattle.tile_map.specs.Spans.{left_of, right_of, top_of, bottom_of};
ghost use Rattle.tile_map.specs.Edges.{is_held_at, window_site, reaches};
ghost use Rattle.tile_map.specs.Tables.{area_both, own_of, interior_of, reach_of, areas_of};
ghost use Rattle.feast_base.specs.declared.limits.TheConstants.{MOST_TILES};
ghost use Rattle.window_sites.specs.declared.window.TheConstants.{MOST_COLUMNS};

use crate::span::{Area, Span, TileAreas, shift};
use feast_base::NoMemory;
use std::alloc::Global;
use std::marker::Model;
use window_sites::offset;

/// The numbers of a plane: how many tiles there are, how large they are, and which of them are off.
/// A type that keeps one knows for which plane it was made.
#[derive(Drop)]
pub struct Plane {
    tx: u32,
    ty: u32,
    w: u32,
    h: u32,
    off: Vec<bool>,
    whole: bool,
}

impl Model for Plane {
    ghost use Rattle.std.specs.Prelude.{◌≡◌};
    ghost use Rattle.tile_map.specs.Plane.{MapValue, IsMap, plane_of, is_whole};

    ghost Value = { MapValue };

    ghost view = { λ p. plane_of p.tx p.ty p.w p.h p.off.items };

    ghost invariant = { λ p. IsMap (plane_of p.tx p.ty p.w p.h p.off.items) × (p.whole ≡ is_whole (plane_of p.tx p.ty p.w p.h p.off.items)) };
}

impl Plane {
    /// The plane of `tx` by `ty` tiles of `w` by `h` sites each, with a mark for each tile that
    /// says whether it is off.
    pub(crate) fn new(tx: u32, ty: u32, w: u32, h: u32, off: Vec<bool>) -> Plane
        requires { IsMap (plane_of tx ty w h off.items) }
        ensures { result ≡ plane_of tx ty w h off.items }
    {
        let whole = are_on(off.as_slice());
        Plane {
            tx,
            ty,
            w,
            h,
            off,
            whole,
        }
    }

    /// The same numbers once more.
    pub(crate) fn copy(&self, alloc: Global) -> Result<Plane, NoMemory>
        ensures { IfOk result (λ p. p ≡ self.now) }
    {
        let off = Vec::from_slice(alloc, self.off.as_slice())?;
        Ok(Plane::new(self.tx, self.ty, self.w, self.h, off))
    }

    /// How many tiles there are.
    pub(crate) fn tiles(&self) -> u32
        ensures count { result ≡ tiles_of self.now }
        ensures few { result ≤ MOST_TILES }
        ensures valid { IsMap self.now }
    {
        self.tx * self.ty
    }

    /// How many columns there are.
    pub(crate) fn width(&self) -> u32
        ensures value { result ≡ self.now.tx * self.now.w }
        ensures valid { IsMap self.now }
    {
        self.tx * self.w
    }

    /// How many rows there are.
    pub(crate) fn height(&self) -> u32
        ensures value { result ≡ self.now.ty * self.now.h }
        ensures valid { IsMap self.now }
    {
        self.ty * self.h
    }

    /// How many columns a tile has.
    pub(crate) fn tile_width(&self) -> u32
        ensures value { result ≡ self.now.w }
        ensures valid { IsMap self.now }
    {
        self.w
    }

    /// How many rows a tile has.
    pub(crate) fn tile_height(&self) -> u32
        ensures value { result ≡ self.now.h }
        ensures valid { IsMap self.now }
    {
        self.h
    }

    /// Whether a tile is one of the plane's, and on.
    pub(crate) fn is_on(&self, tile: u32) -> bool
        ensures { result ≡ is_on self.now tile }
    {
        tile < self.tiles() && !self.off[tile as usize]
    }

    /// Whether no tile is off.
    pub(crate) fn is_whole(&self) -> bool
        ensures test { result ≡ is_whole self.now }
        ensures valid { IsMap self.now }
    {
        self.whole
    }

    /// Whether the plane has the site and its tile is on.
    pub(crate) fn is_live(&self, x: u32, y: u32) -> bool
        ensures { result ≡ is_live self.now (site x y) }
    {
        x < self.tx * self.w && y < self.ty * self.h && self.is_owner_on(x, y)
    }

    /// Whether the tile of a site of the plane is on. The tile need not be found where none is off.
    fn is_owner_on(&self, x: u32, y: u32) -> bool
        requires x { x < self.now.tx * self.now.w }
        requires y { y < self.now.ty * self.now.h }
        ensures { result ≡ is_on self.now (owner_of self.now (site x y)) }
    {
        self.is_whole() || self.is_on(self.owner(x, y))
    }

    /// The tile whose rectangle has the site, which is one of the plane.
    pub(crate) fn owner(&self, x: u32, y: u32) -> u32
        requires x { x < self.now.tx * self.now.w }
        requires y { y < self.now.ty * self.now.h }
        ensures value { result ≡ owner_of self.now (site x y) }
        ensures owns { IsTrue (is_owned self.now result (site x y)) }
        ensures tile { result < tiles_of self.now }
    {
        y / self.h * self.tx + x / self.w
    }

    /// Whether a tile holds the site: the tile is on, and the site is live and at most 4 columns
    /// and 4 rows outside the tile's rectangle.
    pub(crate) fn holds(&self, tile: u32, x: u32, y: u32) -> bool
        ensures { result ≡ is_held self.now tile (site x y) }
    {
        self.is_on(tile)
            && self.is_live(x, y)
            && self.columns(tile).contains(x)
            && self.rows(tile).contains(y)
    }

    /// The column and the row of a position in a tile's rectangle, in row order.
    pub(crate) fn within(&self, centre: u32) -> (u32, u32)
        requires { centre < self.now.w * self.now.h }
        ensures column { result.0 ≡ centre % self.now.w }
        ensures row { result.1 ≡ centre / self.now.w }
        ensures x { result.0 < self.now.w }
        ensures y { result.1 < self.now.h }
        ensures valid { IsMap self.now }
    {
        split(centre, self.w)
    }

    /// Whether the first is the lower of two neighbouring tiles that are on; diagonal neighbours
    /// count.
    pub(crate) fn are_neighbours(&self, lower: u32, higher: u32) -> bool
        ensures { result ≡ are_joined (is_on self.now) self.now.tx lower higher }
    {
        self.is_on(lower)
            && self.is_on(higher)
            && lower < higher
            && (lower % self.tx).abs_diff(higher % self.tx) <= 1
            && (lower / self.tx).abs_diff(higher / self.tx) <= 1
    }

    /// Whether a tile holds a live site of the window at the site.
    pub(crate) fn reaches(&self, tile: u32, x: u32, y: u32) -> bool
        requires tile { tile < tiles_of self.now }
        requires x { x < self.now.tx * self.now.w }
        requires y { y < self.now.ty * self.now.h }
        ensures { result ≡ reaches self.now (site x y) tile }
    {
        let distance = self.columns(tile).gap(x) + self.rows(tile).gap(y);
        if self.is_live(x, y) {
            self.is_on(tile) && distance <= 4
        } else {
            self.holds_one(tile, x, y)
        }
    }

    /// The same, by each site of the window. If the centre is live, as it is for an event, the
    /// distance from the tile gives the answer at once.
    fn holds_one(&self, tile: u32, x: u32, y: u32) -> bool
        requires small { (x < MOST_COLUMNS) × (y < MOST_COLUMNS) }
        ensures { result ≡ reaches self.now (site x y) tile }
    {
        for n in 0..41 {
            if self.holds_at(tile, x, y, n) {
                return true;
            }
        }
        false
    }

    /// Whether a tile holds site `n` of the window at the site.
    fn holds_at(&self, tile: u32, x: u32, y: u32, n: u8) -> bool
        requires n { n ≤ 40 }
        requires small { (x < MOST_COLUMNS) × (y < MOST_COLUMNS) }
        ensures { result ≡ is_held_at self.now tile (window_site self.now (site x y) n) }
    {
        let (dx, dy) = offset(n);
        match (shift(x, dx), shift(y, dy)) {
            (Some(u), Some(v)) => self.holds(tile, u, v),
            _ => false,
        }
    }

    /// The columns and rows that both of two tiles reach.
    pub(crate) fn common(&self, lower: u32, higher: u32) -> Area
        requires lower { lower < tiles_of self.now }
        requires higher { higher < tiles_of self.now }
        ensures value { result ≡ area_both self.now (lower, higher) }
        ensures bound { (result.columns.end ≤ MOST_COLUMNS) × (result.rows.end ≤ MOST_COLUMNS) }
    {
        Area {
            columns: self.columns(lower).common(self.columns(higher)),
            rows: self.rows(lower).common(self.rows(higher)),
        }
    }

    /// The sites of a tile's rectangle with 8 or more columns and rows of it between them and each
    /// border beyond which the plane goes on. An event there needs no edge.
    pub(crate) fn interior(&self, tile: u32) -> Area
        requires { tile < tiles_of self.now }
        ensures { result ≡ interior_of self.now tile }
    {
        Area {
            columns: Span::interior(tile % self.tx, self.w, self.tx),
            rows: Span::interior(tile / self.tx, self.h, self.ty),
        }
    }

    /// The sites of a tile's rectangle.
    pub(crate) fn own(&self, tile: u32) -> Area
        requires { tile < tiles_of self.now }
        ensures { result ≡ own_of self.now tile }
    {
        Area {
            columns: Span::part(tile % self.tx, self.w),
            rows: Span::part(tile / self.tx, self.h),
        }
    }

    /// The sites of the columns and rows that a tile reaches.
    pub(crate) fn reach(&self, tile: u32) -> Area
        requires { tile < tiles_of self.now }
        ensures { result ≡ reach_of self.now tile }
    {
        Area {
            columns: self.columns(tile),
            rows: self.rows(tile),
        }
    }

    /// The areas that are kept of a tile.
    pub(crate) fn areas(&self, tile: u32) -> TileAreas
        requires { tile < tiles_of self.now }
        ensures { result ≡ areas_of self.now tile }
    {
        TileAreas {
            own: self.own(tile),
            interior: self.interior(tile),
            reach: self.reach(tile),
        }
    }

    /// The columns that a tile reaches.
    pub(crate) fn columns(&self, tile: u32) -> Span
        requires { tile < tiles_of self.now }
        ensures first { result.first ≡ left_of self.now tile }
        ensures end { result.end ≡ right_of self.now tile }
        ensures some { result.first < result.end }
        ensures bound { result.end ≤ MOST_COLUMNS }
        ensures valid { IsMap self.now }
    {
        Span::around(tile % self.tx, self.w, self.tx)
    }

    /// The rows that a tile reaches.
    pub(crate) fn rows(&self, tile: u32) -> Span
        requires { tile < tiles_of self.now }
        ensures first { result.first ≡ top_of self.now tile }
        ensures end { result.end ≡ bottom_of self.now tile }
        ensures some { result.first < result.end }
        ensures bound { result.end ≤ MOST_COLUMNS }
        ensures valid { IsMap self.now }
    {
        Span::around(tile / self.tx, self.h, self.ty)
    }
}

/// Whether none of the marks says that its tile is off.
fn are_on(off: &[bool]) -> bool
    ensures { result ≡ list_all not off.now }
{
    off.iter().all(|mark| !*mark)
}

/// The column and the row of a place in rows of `width` places. Where the width is a power of two
/// that a tile may have, it is a number that the compiler knows, and it needs no division.
#[inline]
fn split(place: u32, width: u32) -> (u32, u32)
    requires { 1 ≤ width }
    ensures column { result.0 ≡ place % width }
    ensures row { result.1 ≡ place / width }
{
    match width {
        8 => (place % 8, place / 8),
        16 => (place % 16, place / 16),
        32 => (place % 32, place / 32),
        64 => (place % 64, place / 64),
        _ => (place % width, place / width),
    }
}
