//! Whether the stamps of a journal are those of its links.
ghost use Rattle.std.specs.Prelude.{◌≡◌, ◌<◌, ◌==◌, [], All, IfOk, fold, length, max, slice_index, slice_set};
ghost use Rattle.tile_map.specs.Edges.{pairs_of};
ghost use Rattle.tile_map.specs.Plane.{tiles_of};
ghost use Rattle.journal_check.specs.Clocks.{AreClocks, FirstMisstamped, IsInside, TicksBy, clocks_value, set_at};

use cell_grid::Record;
use feast_base::NoMemory;
use std::alloc::Global;
use tile_map::{Map, Needs};

/// The greatest stamp so far of each tile's events, and of the events that need each edge.
#[derive(Drop)]
struct Clocks {
    tiles: Vec<u32>,
    edges: Vec<u32>,
}

/// The clocks of a map before any event.
fn no_clocks(alloc: Global, map: &Map) -> Result<Clocks, NoMemory>
    ensures { IfOk result (λ c. AreClocks map.now [] (clocks_value c)) }
{
    Ok(Clocks {
        tiles: Vec::from_elem(alloc, 0, map.tiles() as usize)?,
        edges: Vec::from_elem(alloc, 0, map.edges() as usize)?,
    })
}

/// The greatest of a number and the clocks of some edges.
fn latest(clocks: &[u32], start: u32, needs: &Needs) -> u32
    requires { All (λ e. e < length clocks.now) needs.now }
    ensures { result ≡ fold (λ a e. max a (slice_index clocks.now e)) start needs.now }
{
    let mut latest = start;
    for i in 0..needs.len() {
        latest = latest.max(clocks[needs.edge(i) as usize]);
    }
    latest
}

/// Sets the clocks of some edges.
fn set(clocks: &mut [u32], needs: &Needs, stamp: u32)
    requires { All (λ e. e < length clocks.old) needs.now }
    ensures { set_at clocks.old needs.now stamp clocks.new }
{
    for i in 0..needs.len() {
        clocks[needs.edge(i) as usize] = stamp;
    }
}

/// Advances the clocks by an event, if its stamp is 1 more than the greatest of those of its tile
/// and of the edges that it needs.
fn tick(map: &Map, clocks: &mut Clocks, entry: &Record) -> bool
    requires inside { IsInside map.now entry.now }
    requires tiles { length clocks.old.tiles.items ≡ tiles_of map.now }
    requires edges { length clocks.old.edges.items ≡ length (pairs_of map.now) }
    ensures { TicksBy map.now entry.now (clocks_value clocks.old) (clocks_value clocks.new) result }
{
    let needs = map.needs(entry.tile, entry.x, entry.y);
    let tile = entry.tile as usize;
    let before = latest(clocks.edges.as_slice(), clocks.tiles[tile], &needs);
    if u64::from(entry.stamp) != u64::from(before) + 1 {
        return false;
    }
    clocks.tiles[tile] = entry.stamp;
    set(clocks.edges.as_mut_slice(), &needs, entry.stamp);
    true
}

/// The first event whose stamp is not 1 more than the greatest of those before it that are linked
/// with it. `NoMemory` if there is none for the clocks.
pub(crate) fn first_misstamped(
    alloc: Global,
    map: &Map,
    records: &[Record],
) -> Result<Option<u64>, NoMemory>
    requires { All (IsInside map.now) records.now }
    ensures { IfOk result (FirstMisstamped map.now records.now) }
{
    let mut kept = no_clocks(alloc, map)?;
    for k in 0..records.len() {
        if !tick(map, &mut kept, &records[k]) {
            return Ok(Some(k as u64));
        }
    }
    Ok(None)
}
