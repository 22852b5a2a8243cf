//! The attempts of all tiles, of which each is found by its number.
ghost use Rattle.std.specs.Prelude.{◌≡◌, ◌<◌, [], IfOk, drop, length, slice_index_or};
ghost use Rattle.draw_stream.specs.Plans.{attempts};
ghost use Rattle.tile_map.specs.Plane.{site, tiles_of};
ghost use Rattle.report_text.specs.Tables.{lists_of};
ghost use Rattle.report_text.specs.Reading.{first_of};
ghost use Rattle.report_text.specs.Widened.{attempt_of, inside, seed_of, site_of};

use draw_stream::{Attempt, AttemptPlan};
use feast_base::NoMemory;
use std::alloc::Global;
use tile_map::Map;

/// The attempts of a tile of a plan.
fn attempts_of(alloc: Global, plan: &AttemptPlan, tile: u32) -> Result<Vec<Attempt>, NoMemory>
    requires { tile < length plan.now.lists }
    ensures { IfOk result (λ v. v.items ≡ attempts plan.now tile) }
{
    let mut stream = plan.of_tile(alloc, tile)?;
    let mut list = Vec::new(alloc);
    while let Some(attempt) = stream.next() {
        list.push(attempt)?;
    }
    Ok(list)
}

/// The attempts of each tile of a plan.
pub(crate) fn table(
    alloc: Global,
    plan: &AttemptPlan,
    tiles: u32,
) -> Result<Vec<Vec<Attempt>>, NoMemory>
    requires { length plan.now.lists ≡ tiles }
    ensures many { IfOk result (λ v. length v.items ≡ tiles) }
    ensures lists { IfOk result (λ v. lists_of v.items ≡ plan.now.lists) }
{
    let mut lists = Vec::new(alloc);
    for tile in 0..tiles {
        lists.push(attempts_of(alloc, plan, tile)?)?;
    }
    Ok(lists)
}

/// The attempt of this number of a tile, if it has one and its centre is a position of a rectangle of
/// this many sites.
fn attempt_of(lists: &[Vec<Attempt>], sites: u32, tile: u32, number: u64) -> Option<Attempt>
    ensures { result ≡ inside sites (first_of (drop number (slice_index_or (lists_of lists.now) tile []))) }
{
    let attempt = *lists.get(tile as usize)?.get(number as usize)?;
    if attempt.centre < sites {
        Some(attempt)
    } else {
        None
    }
}

/// Where an attempt of a tile is, and its seed. Without an attempt it is the tile's first site, or that
/// of tile 0 if there is no such tile, and the seed is 0.
pub(crate) fn place_of(map: &Map, lists: &[Vec<Attempt>], tile: u32, number: u64) -> (u32, u32, u64)
    requires { length lists.now ≡ tiles_of map.now }
    ensures site { site result.0 result.1 ≡ site_of map.now tile (attempt_of map.now (lists_of lists.now) tile number) }
    ensures seed { result.2 ≡ seed_of (attempt_of map.now (lists_of lists.now) tile number) }
{
    if tile >= map.tiles() {
        return (0, 0, 0);
    }
    let (centre, seed) = match attempt_of(lists, map.tile_sites(), tile, number) {
        Some(attempt) => (attempt.centre, attempt.seed),
        None => (0, 0),
    };
    let (x, y) = map.site_of(tile, centre);
    (x, y, seed)
}
