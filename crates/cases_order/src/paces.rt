//! How a worker keeps pace, without any thread: what it waits for, and for how long.
ghost use Rattle.std.specs.Prelude.{◌≤◌};

use feast_base::{NoMemory, Rest};
use std::alloc::Global;
use std::sync::atomic::{AtomicU64, Ordering};
use std::test::Fail;
use std::time::Duration;
use tile_map::Map;
use tile_threads::{Pace, Stride};

/// How many attempts a worker may be ahead at first.
const NEAR: u64 = 384;

/// How long an attempt takes by the pretended clock, in nanoseconds.
const ATTEMPT: u64 = 1000;

/// A place to rest that counts the rests. Its clock goes on by as much with each.
#[derive(Drop)]
struct Place {
    rests: AtomicU64,
    /// The time, in nanoseconds.
    time: AtomicU64,
    /// How long a rest takes, in nanoseconds.
    rest: u64,
}

impl Place {
    /// A place where nobody has rested.
    fn new(rest: u64) -> Place {
        Place {
            rests: AtomicU64::new(0),
            time: AtomicU64::new(0),
            rest,
        }
    }

    /// How often somebody rested since this was asked last.
    fn rests(&self) -> u64 {
        self.rests.swap(0, Ordering::SeqCst)
    }
}

impl Rest for Place {
    fn time(&self) -> Duration {
        Duration::from_nanos(self.time.load(Ordering::SeqCst))
    }

    fn rest(&self, _time: Duration) {
        self.rests.fetch_add(1, Ordering::SeqCst);
        self.time.fetch_add(self.rest, Ordering::SeqCst);
    }
}

/// A place where the worker of another tile ends at the third rest.
#[derive(Drop)]
struct Ending<'a> {
    rests: AtomicU64,
    other: &'a Stride<'a>,
}

impl Rest for Ending<'_> {
    fn rest(&self, _time: Duration) {
        if self.rests.fetch_add(1, Ordering::SeqCst) == 2 {
            self.other.end();
        }
    }
}

/// A place where the worker of tile 1 comes to a count at the third rest.
#[derive(Drop)]
struct Coming<'a> {
    rests: AtomicU64,
    pace: &'a Pace,
    count: u64,
}

impl Rest for Coming<'_> {
    fn rest(&self, _time: Duration) {
        if self.rests.fetch_add(1, Ordering::SeqCst) == 2 {
            Stride::new(self.pace, 1).keep(self.count, &Place::new(0));
        }
    }
}

/// Two tiles of this many columns and rows.
fn two_tiles(alloc: Global, side: u32) -> Result<Map, NoMemory>
    requires low { 8 ≤ side }
    requires high { side ≤ 64 }
{
    Map::new(alloc, 2, 1, side, side)
}

/// A worker draws this many attempts, and tells of them, each by the pretended clock.
fn draw(stride: &mut Stride, from: u64, to: u64, place: &Place) {
    for count in from..to {
        stride.keep(count, place);
        place.time.fetch_add(ATTEMPT, Ordering::SeqCst);
    }
    stride.keep(to, place);
}

/// A worker rests if another, of a tile that isn't done, is 384 or more attempts behind.
#[test]
fn a_worker_waits_for_one_that_is_far_behind(rt: HostRuntime) -> Result<(), Fail> {
    let map = two_tiles(rt.alloc(), 8)?;
    for (other, count, waits) in [
        (0, NEAR - 1, false),
        (0, NEAR, true),
        (64, NEAR + 63, false),
        (64, NEAR + 64, true),
        (NEAR, 0, false),
    ] {
        let pace = Pace::new(&map);
        let place = Place::new(0);
        Stride::new(&pace, 1).keep(other, &place);
        let before = place.rests();
        Stride::new(&pace, 0).keep(count, &place);
        let waited = place.rests() > 0;
        assert!(rt;
            waited == waits,
            "{count} beside {other}, which waited {before} times"
        );
    }
    Ok(())
}

/// Patience ends: a worker that waits for one that never comes goes on, and all its further waits take
/// less than the first.
#[test]
fn patience_ends(rt: HostRuntime) -> Result<(), Fail> {
    let map = two_tiles(rt.alloc(), 8)?;
    let pace = Pace::new(&map);
    let place = Place::new(0);
    let mut stride = Stride::new(&pace, 0);
    stride.keep(NEAR, &place);
    let first = place.rests();
    draw(&mut stride, NEAR, 100_000, &place);
    assert!(rt; 0 < first && first < 1000, "{first}");
    assert!(rt; place.rests() < first);
    Ok(())
}

/// A wait that ends well restores patience: after it a wait in vain takes as long as the first, which one that
/// comes directly after that doesn't.
#[test]
fn a_wait_that_ends_well_restores_patience(rt: HostRuntime) -> Result<(), Fail> {
    let map = two_tiles(rt.alloc(), 8)?;
    for restored in [false, true] {
        let pace = Pace::new(&map);
        let place = Place::new(0);
        let mut stride = Stride::new(&pace, 0);
        stride.keep(NEAR, &place);
        let first = place.rests();
        if restored {
            let coming = Coming {
                rests: AtomicU64::new(0),
                pace: &pace,
                count: 2 * NEAR,
            };
            stride.keep(2 * NEAR, &coming);
            assert!(rt; coming.rests.load(Ordering::SeqCst) == 3);
        }
        stride.keep(3 * NEAR, &place);
        let last = place.rests();
        assert!(rt; 0 < last && (last == first) == restored, "{first}, {last}");
    }
    Ok(())
}

/// A tile that is done holds nobody, also if it ends while another worker waits for it.
#[test]
fn a_tile_that_is_done_holds_nobody(rt: HostRuntime) -> Result<(), Fail> {
    let map = two_tiles(rt.alloc(), 8)?;
    let pace = Pace::new(&map);
    let other = Stride::new(&pace, 1);
    let ending = Ending {
        rests: AtomicU64::new(0),
        other: &other,
    };
    let mut stride = Stride::new(&pace, 0);
    stride.keep(NEAR, &ending);
    assert!(rt; ending.rests.load(Ordering::SeqCst) == 3);
    let place = Place::new(0);
    draw(&mut stride, NEAR, 100_000, &place);
    assert!(rt; place.rests() == 0);
    Ok(())
}

/// Whether a worker that is alone underway, where the plane stands still for long, comes to rest at these
/// counts, and nowhere between.
fn rests_at(alloc: Global, side: u32, waits: &[u64]) -> Result<bool, NoMemory>
    requires low { 8 ≤ side }
    requires high { side ≤ 64 }
{
    let map = two_tiles(alloc, side)?;
    let pace = Pace::new(&map);
    let place = Place::new(5_000_000);
    let mut stride = Stride::new(&pace, 0);
    let mut from = 0;
    let mut is_so = true;
    for wait in waits {
        draw(&mut stride, from, wait.saturating_sub(1), &place);
        is_so = is_so && place.rests() == 0;
        draw(&mut stride, wait.saturating_sub(1), *wait, &place);
        is_so = is_so && place.rests() > 0;
        from = *wait;
    }
    Ok(is_so)
}

/// Where the plane stands still during waits the distance doubles, up to half as many attempts as the
/// largest tiles have sites; on small tiles it stays as it is. A worker that has waited in vain goes on as
/// far again.
#[test]
fn the_distance_doubles_where_the_plane_stands_still(rt: HostRuntime) -> Result<(), Fail> {
    assert!(rt; rests_at(rt.alloc(), 64, &[384, 768, 1536, 2048, 4096])?);
    assert!(rt; rests_at(rt.alloc(), 32, &[384, 768, 1152, 2304])?);
    assert!(rt; rests_at(rt.alloc(), 8, &[384, 768])?);
    Ok(())
}
