//! The attempts of a tile, one after another.

ghost use Rattle.std.specs.Prelude.{◌≡◌, ◌≤◌, length, drop};
ghost use Rattle.draw_stream.specs.Attempts.{next_attempts};
ghost use Rattle.draw_stream.specs.Kept.{IsSites};
ghost use Rattle.draw_stream.specs.Plans.{TakesNext};

use crate::{Attempt, TileStream};
use std::marker::Model;

/// The attempts of a tile that are left. Contracts see the list of them.
#[derive(Drop)]
pub struct Attempts {
    pub(crate) rest: Rest,
}

/// Where the attempts that are left come from.
#[derive(Drop)]
pub(crate) enum Rest {
    /// This many are still to be drawn, in a tile of this many sites.
    Drawn {
        stream: TileStream,
        sites: u64,
        left: u64,
    },
    /// They are in a list, from a place on.
    Listed {
        list: Vec<Attempt>,
        next: usize,
    },
}

impl Model for Attempts {
    ghost use Rattle.std.specs.Prelude.{List};
    ghost use Rattle.draw_stream.specs.declared.attempt.Attempt.{Attempt};

    ghost Value = { List Attempt };

    ghost use Rattle.draw_stream.specs.Kept.{rest_of, CanTake};

    ghost view = { λ a. rest_of a.rest };

    ghost invariant = { λ a. CanTake a.rest };
}

impl Attempts {
    /// How many attempts are left.
    #[tactic(auto, using(crate::proofs::Places::length_next_attempts))]
    pub fn left(&self) -> u64
        ensures { result ≡ length self.now }
    {
        match &self.rest {
            Rest::Drawn { left, .. } => *left,
            Rest::Listed { list, next } => (list.len() - *next) as u64,
        }
    }

    /// The next attempt. None exactly when none is left.
    pub fn next(&mut self) -> Option<Attempt>
        ensures { TakesNext self.old result self.new }
    {
        match &mut self.rest {
            Rest::Drawn {
                stream,
                sites,
                left,
            } => next_drawn(stream, *sites, left),
            Rest::Listed { list, next } => next_listed(list.as_slice(), next),
        }
    }
}

/// The next of the attempts that are still to be drawn.
#[tactic(auto, using(crate::proofs::Places::next_attempts_none, crate::proofs::Places::next_attempts_some, crate::proofs::Places::takes_none, crate::proofs::Places::takes_first))]
fn next_drawn(stream: &mut TileStream, sites: u64, left: &mut u64) -> Option<Attempt>
    requires { IsSites sites }
    ensures { TakesNext (next_attempts stream.old sites left.old) result (next_attempts stream.new sites left.new) }
{
    if *left == 0 {
        return None;
    }
    *left -= 1;
    Some(stream.attempt(sites))
}

/// The next attempt of a list from a place on.
#[tactic(auto, using(crate::proofs::Places::takes_none, crate::proofs::Places::takes_first))]
fn next_listed(list: &[Attempt], next: &mut usize) -> Option<Attempt>
    requires { next.old ≤ length list.now }
    ensures value { TakesNext (drop next.old list.now) result (drop next.new list.now) }
    ensures within { next.new ≤ length list.now }
{
    let attempt = *list.get(*next)?;
    *next += 1;
    Some(attempt)
}
