//! The edges that an event needs.

ghost use Rattle.std.specs.Prelude.{◌≡◌, ◌*◌, ◌<◌, ◌≤◌, IsTrue, OnOk, length, filter};
ghost use Rattle.tile_map.specs.Plane.{site, tiles_of, is_on, is_live, is_owned};
ghost use Rattle.tile_map.specs.Edges.{pairs_of, other_end, edges_at, reaches, needs_of};
ghost use Rattle.tile_map.specs.Tables.{own_of};
ghost use Rattle.tile_map.specs.Zones.{zone_site};
ghost use Rattle.tile_map.specs.declared.limits.TheConstants.{MOST_NEEDS};
ghost use Rattle.tile_map.specs.declared.span.TheConstants.{ZONES};

use crate::map::Map;
use crate::needs::Needs;
use crate::span::{ZONES, ZONES_ACROSS};
use feast_base::NoMemory;

impl Map {
    /// Keeps for each zone of each tile what an event there needs. A plane of one tile has no edges,
    /// and nothing is kept.
    pub(crate) fn add_zones(&mut self) -> Result<(), NoMemory>
        ensures { OnOk result (self.new ≡ self.old) }
    {
        let tiles = self.tiles();
        if tiles > 1 {
            self.zones.reserve_exact((tiles * ZONES) as usize)?;
            for _ in 0..tiles * ZONES {
                self.add_zone()?;
            }
        }
        Ok(())
    }

    /// Keeps what an event in the first zone needs of which it is not kept yet, if there is one.
    fn add_zone(&mut self) -> Result<(), NoMemory>
        ensures { self.new ≡ self.old }
    {
        let zone = self.zones.len();
        let tile = zone / ZONES as usize;
        if tile < self.tiles() as usize {
            let (x, y) = self.zone_site(tile as u32, (zone % ZONES as usize) as u32);
            let needs = self.needs_by_edges(tile as u32, x, y);
            self.zones.push(needs)?;
        }
        Ok(())
    }

    /// A site of a zone of a tile.
    fn zone_site(&self, tile: u32, zone: u32) -> (u32, u32)
        requires tile { tile < tiles_of self.now }
        requires zone { zone < ZONES }
        ensures value { site result.0 result.1 ≡ zone_site (own_of self.now tile) zone }
        ensures x { result.0 < self.now.tx * self.now.w }
        ensures y { result.1 < self.now.ty * self.now.h }
    {
        let own = self.areas[tile as usize].own;
        let x = own.columns.place_in(zone % ZONES_ACROSS);
        let y = own.rows.place_in(zone / ZONES_ACROSS);
        (x, y)
    }

    /// The edges that an event of a tile that is on needs at a site of its rectangle, by the site's
    /// zone; by the tile's edges if nothing is kept of the zone, as on a plane of one tile.
    pub(crate) fn needs_by_zone(&self, tile: u32, x: u32, y: u32) -> Needs
        requires owned { IsTrue (is_owned self.now tile (site x y)) }
        requires live { IsTrue (is_live self.now (site x y)) }
        ensures { result ≡ needs_of self.now tile (site x y) }
    {
        let own = self.areas[tile as usize].own;
        let zone = own.rows.zone(y) * ZONES_ACROSS + own.columns.zone(x);
        match self.zones.get((tile * ZONES + zone) as usize) {
            Some(needs) => needs.copy(),
            None => self.needs_by_edges(tile, x, y),
        }
    }

    /// The edges that an event of a tile needs at a site of the plane, by the tiles at the other ends
    /// of the tile's edges.
    pub(crate) fn needs_by_edges(&self, tile: u32, x: u32, y: u32) -> Needs
        requires tile { tile < tiles_of self.now }
        requires x { x < self.now.tx * self.now.w }
        requires y { y < self.now.ty * self.now.h }
        ensures { result ≡ needs_of self.now tile (site x y) }
    {
        let edges = self.edges_of(tile);
        if self.owns(tile, x, y) {
            self.needed_near(edges, tile, x, y)
        } else {
            self.needs_among(edges, tile, x, y)
        }
    }

    /// The edges of a tile.
    fn edges_of(&self, tile: u32) -> &[u32]
        requires { tile < tiles_of self.now }
        ensures edges { result.now ≡ edges_at self.now tile }
        ensures few { length result.now ≤ MOST_NEEDS }
    {
        self.around[tile as usize].as_slice()
    }

    /// Whether the tile is on and its rectangle has the site, which is live then.
    pub(crate) fn owns(&self, tile: u32, x: u32, y: u32) -> bool
        requires tile { tile < tiles_of self.now }
        requires x { x < self.now.tx * self.now.w }
        requires y { y < self.now.ty * self.now.h }
        ensures live { IsTrue result → IsTrue (is_live self.now (site x y)) }
        ensures owned { IsTrue result → IsTrue (is_owned self.now tile (site x y)) }
    {
        self.is_on(tile) && self.areas[tile as usize].own.contains(x, y)
    }

    /// Of the edges of a tile, those that an event at a live site needs.
    fn needed_near(&self, edges: &[u32], tile: u32, x: u32, y: u32) -> Needs
        requires edges { edges.now ≡ edges_at self.now tile }
        requires few { length edges.now ≤ MOST_NEEDS }
        requires tile { tile < tiles_of self.now }
        requires live { IsTrue (is_live self.now (site x y)) }
        ensures { result ≡ filter (λ e. reaches self.now (site x y) (other_end self.now tile e)) edges.now }
    {
        let mut needs = Needs::new();
        for edge in edges {
            if self.is_near(self.other_end(*edge, tile), x, y) {
                needs.push(*edge);
            }
        }
        needs
    }

    /// Whether a tile that is on reaches the window of a live site: what it reaches is at most 4
    /// from the site.
    fn is_near(&self, tile: u32, x: u32, y: u32) -> bool
        requires on { IsTrue (is_on self.now tile) }
        requires live { IsTrue (is_live self.now (site x y)) }
        ensures { result ≡ reaches self.now (site x y) tile }
    {
        self.areas[tile as usize].reach.distance(x, y) <= 4
    }

    /// Of the edges of a tile, those that an event at the site needs.
    fn needs_among(&self, edges: &[u32], tile: u32, x: u32, y: u32) -> Needs
        requires edges { edges.now ≡ edges_at self.now tile }
        requires few { length edges.now ≤ MOST_NEEDS }
        requires tile { tile < tiles_of self.now }
        requires x { x < self.now.tx * self.now.w }
        requires y { y < self.now.ty * self.now.h }
        ensures { result ≡ filter (λ e. reaches self.now (site x y) (other_end self.now tile e)) edges.now }
    {
        let mut needs = Needs::new();
        for edge in edges {
            if self.plane.reaches(self.other_end(*edge, tile), x, y) {
                needs.push(*edge);
            }
        }
        needs
    }

    /// The end of an edge that is not the tile.
    fn other_end(&self, edge: u32, tile: u32) -> u32
        requires { edge < length (pairs_of self.now) }
        ensures value { result ≡ other_end self.now tile edge }
        ensures tile { result < tiles_of self.now }
        ensures on { IsTrue (is_on self.now result) }
    {
        let (lower, higher) = self.ends(edge);
        if lower == tile { higher } else { lower }
    }
}
