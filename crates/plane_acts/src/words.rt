//! The random words of acts.

ghost use Rattle.std.specs.Prelude.{◌≡◌, ℕ, ◌+◌};
ghost use Rattle.draw_stream.specs.Words.{tile_state, tile_word};

use rand_core::SeedableRng;
use rand_core::utils::NextWord;
use rand_xoshiro::Xoshiro256PlusPlus;
use std::marker::Model;

/// The words of Xoshiro256++ that the acts before a leg draw, one after another. Contracts see the
/// generator's state.
#[derive(Drop)]
pub(crate) struct ActWords {
    words: Xoshiro256PlusPlus,
}

impl Model for ActWords {
    ghost use Rattle.std.specs.Prelude.{List, ℕ};

    ghost Value = { List ℕ };

    ghost view = { λ w. w.words };
}

impl ActWords {
    /// The generator that `seed_from_u64` makes of a seed.
    #[tactic(auto, unfolding(draw_stream::specs::Words::tile_state))]
    pub(crate) fn new(seed: u64) -> ActWords
        ensures { result ≡ tile_state seed 0 }
    {
        ActWords {
            words: Xoshiro256PlusPlus::seed_from_u64(seed),
        }
    }

    /// The next word.
    #[tactic(auto, unfolding(draw_stream::specs::Words::tile_step))]
    pub(crate) fn word(&mut self) -> u64
        ensures place { (seed n : ℕ) → self.old ≡ tile_state seed n → result ≡ tile_word seed n }
        ensures after { (seed n : ℕ) → self.old ≡ tile_state seed n → self.new ≡ tile_state seed (n + 1) }
    {
        self.words.next_word()
    }
}
