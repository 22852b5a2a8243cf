//! The random words of an event.

ghost use Rattle.std.specs.Prelude.{◌≡◌, ℕ, ◌+◌, ◌%◌, ◌<◌};
ghost use Rattle.draw_stream.specs.Words.{event_step, event_state, event_word};

use rand_core::SeedableRng;
use rand_core::utils::NextWord;
use rand_xoshiro::SplitMix64;
use std::marker::Model;

/// The words of SplitMix64 that an event draws. Contracts see the generator's state.
#[derive(Drop)]
pub struct EventDraws {
    words: SplitMix64,
}

impl Model for EventDraws {
    ghost use Rattle.std.specs.Prelude.{ℕ};

    ghost Value = { ℕ };

    ghost view = { λ d. d.words };
}

impl EventDraws {
    /// The generator that `seed_from_u64` makes of the event's seed.
    #[tactic(auto, unfolding(crate::specs::Words::event_state))]
    pub fn new(seed: u64) -> EventDraws
        ensures { result ≡ event_state seed 0 }
    {
        EventDraws {
            words: SplitMix64::seed_from_u64(seed),
        }
    }

    /// The next word modulo `n`, which is above 0.
    #[tactic(auto, unfolding(crate::specs::Words::event_state, crate::specs::Words::event_step))]
    pub fn below(&mut self, n: u64) -> u64
        requires { 0 < n }
        ensures value { result ≡ (event_step self.old).0 % n }
        ensures moved { self.new ≡ (event_step self.old).1 }
        ensures place { (seed k : ℕ) → self.old ≡ event_state seed k → result ≡ event_word seed k % n }
        ensures after { (seed k : ℕ) → self.old ≡ event_state seed k → self.new ≡ event_state seed (k + 1) }
        ensures bound { result < n }
    {
        self.words.next_word() % n
    }
}
