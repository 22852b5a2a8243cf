//! How one worker keeps pace with the others.
use crate::pace::Pace;
use feast_base::{MOST_TILES, Rest};
use std::thread::yield_now;
use std::time::Duration;

/// After so many attempts a worker tells how far it is: some 50 microseconds of work, far more than it
/// takes to look at all counts.
const STRETCH: u64 = 64;

/// How often a wait begins with a yield, in place of a rest. With more tiles than processors the
/// slowest mostly needs no more than a processor, and without work a yield takes no time.
const YIELDS: u64 = 20;

/// The first rest of a wait, in microseconds. The system's timers add some 50.
const FIRST_REST: u64 = 50;

/// How many times a rest is doubled at most, to 400 microseconds.
const DOUBLINGS: u64 = 3;

/// How long a part of a wait is, in nanoseconds, for which a worker asks what the plane has made
/// meanwhile: a millisecond, less than the least time for which systems take a processor away.
const LONG: u64 = 1_000_000;

/// A clock's time in nanoseconds.
fn nanoseconds(time: Duration) -> u64 {
    time.as_nanos().min(u128::from(u64::MAX)) as u64
}

/// How long a rest is, by the number of the rests before.
fn rest_after(rests: u64) -> Duration {
    Duration::from_micros(FIRST_REST << rests.min(DOUBLINGS))
}

/// A moment of a wait.
#[derive(Clone, Copy)]
struct Moment {
    /// When it was, in nanoseconds of the clock.
    time: u64,
    /// How many attempts all workers had told of.
    made: u64,
    /// How far ahead a worker could be.
    distance: u64,
}

impl Moment {
    /// Whether a long part of a wait lies between another moment and this one.
    fn is_long_after(self, since: Moment) -> bool {
        self.time.saturating_sub(since.time) >= LONG
    }
}

/// What one worker knows of the pace.
#[derive(Drop)]
pub struct Stride<'a> {
    pace: &'a Pace,
    tile: u32,
    /// The count that it told last.
    told: u64,
    /// The count at which it tells again.
    next: u64,
    /// The count up to which nobody was too far behind when it looked last, or up to which it may go
    /// after a wait in vain.
    limit: u64,
    /// The tile that was too far behind when it looked last.
    slow: usize,
    /// When it began the stretch that it is in, in nanoseconds of the clock.
    begun: u64,
    /// How long a stretch takes where nothing holds the worker up, in nanoseconds: the least of late,
    /// which grows by at most an eighth with each stretch.
    took: u64,
}

impl<'a> Stride<'a> {
    /// That of the worker of a tile, which has drawn no attempt.
    pub fn new(pace: &'a Pace, tile: u32) -> Stride<'a> {
        Stride {
            pace,
            tile,
            told: 0,
            next: 0,
            limit: 0,
            slow: 0,
            begun: 0,
            took: u64::MAX,
        }
    }

    /// The worker has drawn so many attempts, and is about to draw the next. It waits, resting at a
    /// place, as long as some tile is too far behind, and as patience lasts.
    pub fn keep<R: Rest>(&mut self, count: u64, place: &R) {
        if count < self.next {
            return;
        }
        let now = nanoseconds(place.time());
        let took = now.saturating_sub(self.begun);
        self.took = took.min(self.took.saturating_add(self.took / 8));
        self.begun = now;
        self.pace
            .tell(self.tile, count, count.saturating_sub(self.told));
        self.told = count;
        self.next = count.saturating_add(STRETCH);
        if count >= self.limit && !self.may_go(count) {
            self.wait(count, place);
            self.begun = nanoseconds(place.time());
        }
    }

    /// The worker is done, so that nobody waits for it.
    pub fn end(&self) {
        self.pace.tell(self.tile, u64::MAX, 0);
    }

    /// Whether no tile is too far behind a worker with this count. Looks first at the one that was so
    /// before.
    fn may_go(&mut self, count: u64) -> bool {
        let distance = self.pace.distance();
        if self.pace.count(self.slow).saturating_add(distance) <= count {
            return false;
        }
        let mut least = u64::MAX;
        for tile in 0..MOST_TILES {
            let other = self.pace.count(tile);
            if other.saturating_add(distance) <= count {
                self.slow = tile;
                return false;
            }
            least = least.min(other);
        }
        self.limit = least.saturating_add(distance);
        true
    }

    /// Waits until no tile is too far behind. If patience ends before that, the worker may go on as far
    /// again.
    fn wait<R: Rest>(&mut self, count: u64, place: &R) {
        let patience = self.pace.patience();
        let mut since = self.moment(place);
        for turn in 0..patience {
            if turn < YIELDS {
                yield_now();
            } else {
                place.rest(rest_after(turn - YIELDS));
            }
            let now = self.moment(place);
            let is_long = now.is_long_after(since);
            if is_long {
                self.adapt(since, now);
                since = self.moment(place);
            }
            if self.may_go(count) {
                if !is_long {
                    self.pace.narrow();
                }
                self.pace.after_wait(patience, true);
                return;
            }
        }
        self.limit = count.saturating_add(self.pace.distance());
        self.pace.after_wait(patience, false);
    }

    /// This moment.
    fn moment<R: Rest>(&self, place: &R) -> Moment {
        Moment {
            time: nanoseconds(place.time()),
            made: self.pace.attempt_count(),
            distance: self.pace.distance(),
        }
    }

    /// A long part of a wait is over. The plane stood still meanwhile if all workers made less than half of
    /// what this one alone makes in such a time.
    fn adapt(&self, since: Moment, now: Moment) {
        let waited = now.time.saturating_sub(since.time);
        let made = now.made.wrapping_sub(since.made);
        let half = waited.saturating_mul(STRETCH) / 2;
        if made.saturating_mul(self.took) < half {
            self.pace.widen(since.distance);
        } else {
            self.pace.narrow();
        }
    }
}
