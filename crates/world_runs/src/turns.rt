//! The tiles of a stepped run's order, one after another.
ghost use Rattle.std.specs.Prelude.{◌≡◌, ◌*◌, ◌≤◌};
ghost use Rattle.std.specs.Iterator.{YieldsFirst, item_count};
ghost use Rattle.world_runs.specs.Orders.{drawn_order};
ghost use Rattle.world_runs.specs.Turns.{IsDrawn, turns_drawn};
ghost use Rattle.feast_base.specs.declared.limits.TheConstants.{MOST_TILES};

use draw_stream::{TileStream, remainder};
use std::marker::Model;

/// The tiles of an order that have not been given yet. Contracts see the list of them.
#[derive(Drop)]
pub struct Turns<'a> {
    rest: Rest<'a>,
}

/// Where the tiles that are left come from.
#[derive(Drop)]
pub(crate) enum Rest<'a> {
    /// They are written out.
    Listed(&'a [u32]),
    /// They are drawn.
    Drawn(DrawnTurns),
}

/// The tiles that a generator still draws, two from an attempt of its stream, after the second
/// tile of a pair whose first has been given.
#[derive(Drop)]
pub(crate) struct DrawnTurns {
    second: Option<u32>,
    stream: TileStream,
    tiles: u64,
    pairs: u32,
}

impl<'a> Model for Turns<'a> {
    ghost use Rattle.std.specs.Prelude.{ℕ, List};

    ghost Value = { List ℕ };

    ghost use Rattle.world_runs.specs.Turns.{rest_of, CanGive};

    ghost view = { λ t. rest_of t.rest };

    ghost invariant = { λ t. CanGive t.rest };
}

impl<'a> Turns<'a> {
    /// The tiles of a list.
    pub(crate) fn listed(tiles: &'a [u32]) -> Turns<'a>
        ensures { result ≡ tiles.now }
    {
        Turns {
            rest: Rest::Listed(tiles),
        }
    }

    /// The tiles that a seed draws, two for each pair: each word of its generator names one, by its
    /// remainder modulo the number of tiles.
    pub(crate) fn drawn(seed: u64, tiles: u32, pairs: u32) -> Turns<'a>
        requires some { 1 ≤ tiles }
        requires most { tiles ≤ MOST_TILES }
        ensures { result ≡ drawn_order seed tiles (2 * pairs) }
    {
        Turns {
            rest: Rest::Drawn(DrawnTurns {
                second: None,
                stream: TileStream::new(seed, 0),
                tiles: u64::from(tiles),
                pairs,
            }),
        }
    }
}

impl DrawnTurns {
    /// The next tile. None exactly when none is left.
    #[inline]
    fn next(&mut self) -> Option<u32>
        requires { IsDrawn self.old }
        ensures value { YieldsFirst turns_drawn self.old result self.new }
        ensures drawn { IsDrawn self.new }
    {
        if let Some(second) = self.second.take() {
            return Some(second);
        }
        if self.pairs == 0 {
            return None;
        }
        self.pairs -= 1;
        let words = self.stream.attempt(self.tiles);
        self.second = Some(remainder(words.seed, self.tiles) as u32);
        Some(words.centre)
    }
}

/// The next tile of a list. None exactly when none is left.
#[inline]
fn next_listed(tiles: &mut &[u32]) -> Option<u32>
    ensures { YieldsFirst (λ rest. rest) tiles.old.now result tiles.new.now }
{
    let (first, others) = tiles.split_first()?;
    *tiles = others;
    Some(*first)
}

impl Iterator for Turns<'_> {
    type Item = u32;

    ghost next_gives = { YieldsFirst (λ rest. rest) };

    ghost remaining = { item_count (λ rest. rest) };

    /// The next tile. None exactly when all have been given.
    #[inline]
    fn next(&mut self) -> Option<u32> {
        match &mut self.rest {
            Rest::Listed(tiles) => next_listed(tiles),
            Rest::Drawn(drawn) => drawn.next(),
        }
    }
}
