//! How a worker pauses after an attempt that was abandoned.
use draw_stream::EventDraws;
use std::hint::spin_loop;
use std::thread::yield_now;

/// A first pause has fewer rounds than this. A round takes 4 to 40 nanoseconds, depending on the
/// processor, so that a first pause is about as long as a neighbour holds an edge.
const ROUNDS: u64 = 400;

/// How many times this bound is doubled at most. The longest pause is then some 100,000 rounds, which
/// are up to some four milliseconds: long enough that among four tiles of 8 by 8 sites, which need each
/// other's edges at nearly every attempt, at least three quarters of all attempts become events.
const DOUBLINGS: u32 = 8;

/// The pauses of one worker.
///
/// Abandoning an attempt costs almost nothing, so a tile that finds its edges held would use up all
/// its attempts in a moment while its neighbour goes on acting. So after each abandoned attempt its
/// worker pauses for a random number of rounds. The bound of this number doubles with each further
/// attempt that is abandoned, and starts again once an attempt becomes an event: randomized
/// exponential backoff, as on an Ethernet. Then it yields the processor, since the tile that holds
/// the edge may be waiting for one.
///
/// The constants were chosen by `bench/even`, so that all tiles make about the same number of events
/// and large planes lose little time. Nothing that is promised of a tile depends on a pause.
#[derive(Drop)]
pub struct Backoff {
    draws: EventDraws,
    /// How many attempts were abandoned in a row.
    losses: u32,
}

impl Backoff {
    /// The pauses of a tile's worker. They are drawn from the tile's number, so that workers differ.
    pub fn new(tile: u32) -> Backoff {
        Backoff {
            draws: EventDraws::new(u64::from(tile)),
            losses: 0,
        }
    }

    /// An attempt is over. Answers how many rounds the worker pauses if it was lost, that is,
    /// abandoned: a random number below the bound. None if it became an event.
    pub fn rounds(&mut self, lost: bool) -> Option<u64> {
        if !lost {
            self.losses = 0;
            return None;
        }
        let rounds = self.draws.below(ROUNDS << self.losses.min(DOUBLINGS));
        self.losses = self.losses.saturating_add(1);
        Some(rounds)
    }

    /// An attempt is over. Pauses if it was lost, that is, abandoned.
    pub(crate) fn after_attempt(&mut self, lost: bool) {
        let Some(rounds) = self.rounds(lost) else {
            return;
        };
        for _ in 0..rounds {
            spin_loop();
        }
        yield_now();
    }
}
