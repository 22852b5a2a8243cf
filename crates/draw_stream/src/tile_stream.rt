//! Attempts drawn from a tile's generator.

ghost use Rattle.std.specs.Prelude.{◌≡◌, ℕ, List, ◌+◌, ◌*◌, ◌%◌, ◌<◌, ◌≤◌};
ghost use Rattle.draw_stream.specs.Words.{tile_step, tile_state};
ghost use Rattle.draw_stream.specs.Attempts.{stream_seed, attempt_at, next_attempt, state_after};
ghost use Rattle.feast_base.specs.declared.limits.TheConstants.{MOST_SITES};

use crate::Attempt;
use crate::remainders::remainder;
use rand_core::SeedableRng;
use rand_core::utils::NextWord;
use rand_xoshiro::Xoshiro256PlusPlus;
use std::marker::Model;

/// The words of Xoshiro256++ that a tile draws. Contracts see the generator's state.
#[derive(Drop)]
pub struct TileStream {
    words: Xoshiro256PlusPlus,
}

impl Model for TileStream {
    ghost use Rattle.std.specs.Prelude.{List, ℕ};

    ghost Value = { List ℕ };

    ghost view = { λ s. s.words };
}

impl TileStream {
    /// The generator that `seed_from_u64` makes of `seed + tile`, taken modulo 2^64.
    #[tactic(auto, unfolding(crate::specs::Words::tile_state))]
    pub fn new(seed: u64, tile: u32) -> TileStream
        ensures { result ≡ tile_state (stream_seed seed tile) 0 }
    {
        TileStream {
            words: Xoshiro256PlusPlus::seed_from_u64(seed.wrapping_add(u64::from(tile))),
        }
    }

    /// The next word.
    #[tactic(auto, unfolding(crate::specs::Words::tile_step))]
    fn word(&mut self) -> u64
        ensures value { result ≡ (tile_step self.old).0 }
        ensures moved { self.new ≡ (tile_step self.old).1 }
    {
        self.words.next_word()
    }

    /// The next attempt in a tile of the given number of sites, 1 to 4,096. Its centre is the next
    /// word modulo the number of sites, and its seed the word after that.
    #[tactic(auto, using(crate::proofs::Places::attempt_in_place, crate::proofs::Places::state_in_place))]
    pub fn attempt(&mut self, sites: u64) -> Attempt
        requires some { 1 ≤ sites }
        requires most { sites ≤ MOST_SITES }
        ensures value { result ≡ next_attempt self.old sites }
        ensures moved { self.new ≡ state_after self.old }
        ensures place { (stream i : ℕ) → self.old ≡ tile_state stream (2 * i) → result ≡ attempt_at stream sites i }
        ensures after { (stream i : ℕ) → self.old ≡ tile_state stream (2 * i) → self.new ≡ tile_state stream (2 * (i + 1)) }
        ensures bound { result.centre < sites }
    {
        let centre = remainder(self.word(), sites) as u32;
        let seed = self.word();
        Attempt { centre, seed }
    }
}
