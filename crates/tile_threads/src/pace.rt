//! How far the workers of a run are, and how far ahead of the slowest one may be.
use feast_base::{MOST_SITES, MOST_TILES};
use std::array::from_fn;
use std::sync::atomic::{AtomicU64, Ordering};
use tile_map::Map;

/// How many attempts a worker may be ahead of the slowest, as long as that costs little: a tenth of the
/// sites of the largest tiles, and some 300 microseconds of work. Less makes runs of many tiles slower,
/// since a tile's sites leave the processor's cache while others have their turns. On the smallest tiles
/// less would gain nothing: they lose attempts to each other in streaks of about this length.
const NEAR: u64 = 384;

/// How many it may be ahead at most: half as many as the largest tiles have sites. That is a few
/// milliseconds of work, for which a system with other work takes a processor away.
const FAR: u64 = MOST_SITES / 2;

/// How many turns a wait may take. With its rests that is a tenth of a second: then the slowest is
/// held back by its gate, or has no thread of its own.
const PATIENCE: u64 = 250;

/// How far the workers of a run are.
///
/// With more tiles than processors, or beside other work, the system runs some workers to their end
/// before others begin. Such a run has its one order too, but its tiles hardly act on each other, and a
/// moment of it is no age of the plane. So a worker that is too far ahead of the slowest waits for it
/// (`Stride`).
///
/// What is too far adapts. The nearer the workers keep together, the more often one of them waits, and
/// where the system takes a processor away for longer than the others can go on, the whole plane stands
/// still. So the distance doubles as long as the plane stands still during waits, and shrinks again
/// once it doesn't.
///
/// No wait is for ever: a worker that finds no patience left goes on. Nothing that is promised of a tile
/// depends on a wait. The numbers here and in `Stride` were chosen by `bench/even`.
#[derive(Drop)]
pub struct Pace {
    /// How many attempts each tile had drawn when its worker told it last; the greatest number if it
    /// is done, or if there is no such tile. They lie side by side, since they are looked at more
    /// often than told.
    counts: [AtomicU64; MOST_TILES],
    /// How many attempts all workers have told of.
    made: AtomicU64,
    /// How many attempts a worker may be ahead of the slowest.
    distance: AtomicU64,
    /// The greatest distance on this plane.
    most: u64,
    /// How many turns the next wait may take. One in vain leaves a quarter of them, so that all waits
    /// in vain take little more than the first, and one that ends well restores them.
    patience: AtomicU64,
}

impl Pace {
    /// The pace of a run of all tiles of this map, at its beginning.
    pub fn new(map: &Map) -> Pace {
        let tiles = map.tiles() as usize;
        Pace {
            counts: from_fn(|tile| AtomicU64::new(if tile < tiles { 0 } else { u64::MAX })),
            made: AtomicU64::new(0),
            distance: AtomicU64::new(NEAR),
            most: sites_in_reach(map).min(FAR).max(NEAR),
            patience: AtomicU64::new(PATIENCE),
        }
    }

    /// How many attempts a tile had drawn when its worker told it last. The greatest number if it is
    /// done, or if there is no such tile.
    pub(crate) fn count(&self, tile: usize) -> u64 {
        match self.counts.get(tile) {
            Some(told) => told.load(Ordering::SeqCst),
            None => u64::MAX,
        }
    }

    /// A tile has drawn so many attempts, and so many of them since its worker told it last.
    pub(crate) fn tell(&self, tile: u32, count: u64, new: u64) {
        if let Some(told) = self.counts.get(tile as usize) {
            told.store(count, Ordering::SeqCst);
        }
        self.made.fetch_add(new, Ordering::SeqCst);
    }

    /// How many attempts all workers have told of, modulo 2^64.
    pub(crate) fn attempt_count(&self) -> u64 {
        self.made.load(Ordering::SeqCst)
    }

    /// How many attempts a worker may be ahead of the slowest.
    pub(crate) fn distance(&self) -> u64 {
        self.distance.load(Ordering::SeqCst)
    }

    /// The plane stood still while a worker waited at this distance: doubles it, unless another worker
    /// has changed it meanwhile.
    pub(crate) fn widen(&self, distance: u64) {
        if self.distance() == distance {
            self.distance.store(distance.saturating_mul(2).min(self.most), Ordering::SeqCst);
        }
    }

    /// The plane went on while a worker waited: takes a sixteenth from the distance.
    pub(crate) fn narrow(&self) {
        let distance = self.distance();
        if distance > NEAR {
            self.distance
                .store((distance - distance / 16).max(NEAR), Ordering::SeqCst);
        }
    }

    /// How many turns a wait may take now.
    pub(crate) fn patience(&self) -> u64 {
        self.patience.load(Ordering::SeqCst)
    }

    /// A wait that was allowed so many turns ended well, or was in vain.
    pub(crate) fn after_wait(&self, allowed: u64, ended_well: bool) {
        if !ended_well {
            self.patience.store((allowed / 4).max(1), Ordering::SeqCst);
        } else if allowed < PATIENCE {
            self.patience.store(PATIENCE, Ordering::SeqCst);
        }
    }
}

/// How many sites the first tile reaches: its own and some more. Nothing if there is no tile.
fn sites_in_reach(map: &Map) -> u64 {
    if map.tiles() == 0 {
        return 0;
    }
    let (left, right) = map.columns(0);
    let (top, bottom) = map.rows(0);
    u64::from(right - left).saturating_mul(u64::from(bottom - top))
}
