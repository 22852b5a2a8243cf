//! Plans of attempts.

ghost use Rattle.std.specs.Prelude.{◌≡◌, ◌≤◌, ◌<◌, ◌*◌, length, IfOk, IsOk, IsSome};
ghost use Rattle.draw_stream.specs.Plans.{IsPlan, attempts, tiles_on, count_of, seeded, scripted};
ghost use Rattle.feast_base.specs.declared.limits.TheConstants.{MOST_ATTEMPTS, MOST_SITES, MOST_TILES};

use crate::attempts::{Attempts, Rest};
use crate::{Attempt, TileStream};
use feast_base::NoMemory;
use std::alloc::Global;
use std::marker::Model;

/// The attempts of one tile, written out. Contracts see the list of them.
#[derive(Drop)]
pub struct Script {
    attempts: Vec<Attempt>,
}

impl Model for Script {
    ghost use Rattle.std.specs.Prelude.{List};
    ghost use Rattle.draw_stream.specs.declared.attempt.Attempt.{Attempt};

    ghost Value = { List Attempt };

    ghost view = { λ s. s.attempts.items };
}

impl Script {
    /// The script of these attempts, in their order.
    pub fn new(attempts: Vec<Attempt>) -> Script
        ensures { result ≡ attempts.items }
    {
        Script { attempts }
    }

    /// The attempts, in their order.
    pub fn into_attempts(self) -> Vec<Attempt>
        ensures { result.items ≡ self }
    {
        self.attempts
    }
}

/// The attempts of each tile of a world. Contracts see the lists of them, and for a seeded plan its
/// seed and how many attempts each tile makes.
#[derive(Drop)]
pub struct AttemptPlan {
    plan: Plan,
}

/// What a seeded plan is made with.
#[derive(Drop)]
pub(crate) struct Origin {
    seed: u64,
    count: u64,
    off: Vec<bool>,
    sites: u64,
}

impl Origin {
    /// How many attempts a tile makes.
    fn count_of(&self, tile: u32) -> u64
        requires { tile < length self.now.off.items }
        ensures { result ≡ count_of self.now.count self.now.off.items tile }
    {
        if self.off[tile as usize] {
            0
        } else {
            self.count
        }
    }
}

/// How the attempts are given.
#[derive(Drop)]
pub(crate) enum Plan {
    Seeded(Origin),
    Scripted(Vec<Script>),
}

impl Model for AttemptPlan {
    ghost use Rattle.draw_stream.specs.Plans.{PlanValue};

    ghost Value = { PlanValue };

    ghost use Rattle.draw_stream.specs.Kept.{plan_of, CanGive};

    ghost view = { λ p. plan_of p.plan };

    ghost invariant = { λ p. CanGive p.plan };
}

impl AttemptPlan {
    /// The plan by which each of 1 to 64 tiles draws `count` attempts from the generator of the
    /// seed and its number, except that a tile that is off has none: `off` has an entry for each
    /// tile. A tile has 1 to 4,096 sites. There are at most 1,000,000 attempts over all tiles.
    ///
    /// `NoMemory` if there was no memory for the marks.
    #[tactic(auto, using(crate::proofs::Plans::length_seeded_lists))]
    pub fn seeded(
        alloc: Global,
        seed: u64,
        count: u64,
        off: &[bool],
        sites: u64,
    ) -> Result<AttemptPlan, NoMemory>
        requires some_tiles { 1 ≤ length off.now }
        requires most_tiles { length off.now ≤ MOST_TILES }
        requires some_sites { 1 ≤ sites }
        requires most_sites { sites ≤ MOST_SITES }
        requires few { count * tiles_on off.now ≤ MOST_ATTEMPTS }
        ensures value { IfOk result (λ p. p ≡ seeded seed count off.now sites) }
        ensures lists { IfOk result (λ p. length p.lists ≡ length off.now) }
    {
        let off = Vec::from_slice(alloc, off)?;
        Ok(AttemptPlan {
            plan: Plan::Seeded(Origin {
                seed,
                count,
                off,
                sites,
            }),
        })
    }

    /// The plan by which each tile has the attempts of its script. There are 1 to 64 scripts, with
    /// at most 1,000,000 attempts in total.
    pub fn scripted(lists: Vec<Script>) -> AttemptPlan
        requires { IsPlan (scripted lists.items) }
        ensures { result ≡ scripted lists.items }
    {
        AttemptPlan {
            plan: Plan::Scripted(lists),
        }
    }

    /// The seed of a seeded plan, and how many attempts each of its tiles that is on makes. None
    /// exactly for a plan that is written out.
    pub fn origin(&self) -> Option<(u64, u64)>
        ensures value { result ≡ self.now.origin }
        ensures plan { IsPlan self.now }
    {
        match &self.plan {
            Plan::Seeded(origin) => Some((origin.seed, origin.count)),
            Plan::Scripted(_) => None,
        }
    }

    /// How many attempts a tile of the plan has, at most 1,000,000.
    #[tactic(auto, using(crate::proofs::Plans::seeded_lists_at, crate::proofs::Plans::length_seeded_attempts, crate::proofs::Plans::length_seeded_lists, crate::proofs::Plans::attempts_few, crate::proofs::Plans::count_few))]
    pub fn count(&self, tile: u32) -> u64
        requires { tile < length self.now.lists }
        ensures value { result ≡ length (attempts self.now tile) }
        ensures bound { result ≤ MOST_ATTEMPTS }
        ensures plan { IsPlan self.now }
    {
        match &self.plan {
            Plan::Seeded(origin) => origin.count_of(tile),
            Plan::Scripted(scripts) => scripts[tile as usize].attempts.len() as u64,
        }
    }

    /// The attempts of a tile of the plan. Refused only if memory runs out, and never for a seeded
    /// plan.
    #[tactic(auto, using(crate::proofs::Plans::seeded_lists_at, crate::proofs::Plans::seeded_attempts_drawn, crate::proofs::Plans::length_seeded_lists, crate::proofs::Plans::attempts_few, crate::proofs::Plans::count_few, crate::proofs::Places::length_next_attempts))]
    pub fn of_tile(&self, alloc: Global, tile: u32) -> Result<Attempts, NoMemory>
        requires { tile < length self.now.lists }
        ensures value { IfOk result (λ a. a ≡ attempts self.now tile) }
        ensures bound { IfOk result (λ a. length a ≤ MOST_ATTEMPTS) }
        ensures drawn { IsSome self.now.origin → IsOk result }
    {
        match &self.plan {
            Plan::Seeded(origin) => Ok(Attempts {
                rest: Rest::Drawn {
                    stream: TileStream::new(origin.seed, tile),
                    sites: origin.sites,
                    left: origin.count_of(tile),
                },
            }),
            Plan::Scripted(scripts) => from_list(alloc, scripts[tile as usize].attempts.as_slice()),
        }
    }
}

/// The attempts of a list.
fn from_list(alloc: Global, attempts: &[Attempt]) -> Result<Attempts, NoMemory>
    ensures { IfOk result (λ a. a ≡ attempts.now) }
{
    let list = Vec::from_slice(alloc, attempts)?;
    Ok(Attempts {
        rest: Rest::Listed { list, next: 0 },
    })
}
