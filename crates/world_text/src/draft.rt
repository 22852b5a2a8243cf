//! What the lines so far say of a world.
ghost use Rattle.std.specs.Prelude.{◌≡◌, ◌++◌, ◌∷◌, IfOk, [], replicate};
ghost use Rattle.world_text.specs.Drafts.{nothing_said};
ghost use Rattle.world_text.specs.Values.{draft_value};

use crate::atoms::RawAtoms;
use crate::kind::Kind;
use draw_stream::{Attempt, Script};
use feast_base::NoMemory;
use std::alloc::Global;
use std::marker::Model;
use tile_map::LEAST_SIDE;

/// The attempts of a tile, in the order of their lines. Contracts see the list of them.
#[derive(Drop)]
pub(crate) struct Tries {
    attempts: Vec<Attempt>,
}

impl Model for Tries {
    ghost use Rattle.std.specs.Prelude.{List};
    ghost use Rattle.draw_stream.specs.declared.attempt.Attempt.{Attempt};

    ghost Value = { List Attempt };

    ghost view = { λ t. t.attempts.items };
}

impl Tries {
    /// No attempts.
    pub(crate) fn new(alloc: Global) -> Tries
        ensures { result ≡ [] }
    {
        Tries {
            attempts: Vec::new(alloc),
        }
    }

    /// Adds an attempt. `NoMemory` if there is none for it.
    pub(crate) fn push(&mut self, attempt: Attempt) -> Result<(), NoMemory>
        ensures { IfOk result (λ _. self.new ≡ self.old ++ attempt ∷ []) }
    {
        self.attempts.push(attempt)?;
        Ok(())
    }

    /// The attempts as a script.
    pub(crate) fn into_script(self) -> Script
        ensures { result ≡ self }
    {
        Script::new(self.attempts)
    }
}

/// What the lines so far say of a world.
#[derive(Drop)]
pub(crate) struct Draft {
    pub(crate) last: Kind,
    pub(crate) second: bool,
    pub(crate) tx: u32,
    pub(crate) ty: u32,
    pub(crate) w: u32,
    pub(crate) h: u32,
    pub(crate) off: Vec<bool>,
    pub(crate) origin: Option<(u64, u64)>,
    pub(crate) made: u32,
    pub(crate) tries: Vec<Tries>,
    pub(crate) atoms: RawAtoms,
    pub(crate) order_seed: Option<u64>,
    pub(crate) order: Vec<u32>,
}

/// This many empty lists of attempts.
pub(crate) fn empty_lists(alloc: Global, count: usize) -> Result<Vec<Tries>, NoMemory>
    ensures { IfOk result (λ v. v.items ≡ replicate count []) }
{
    let mut lists = Vec::new(alloc);
    for _i in 0..count {
        lists.push(Tries::new(alloc))?;
    }
    Ok(lists)
}

/// Before any line.
pub(crate) fn nothing_said(alloc: Global) -> Result<Draft, NoMemory>
    ensures { IfOk result (λ d. draft_value d ≡ nothing_said) }
{
    let off = Vec::from_elem(alloc, false, 1)?;
    Ok(Draft {
        last: Kind::Start,
        second: false,
        tx: 1,
        ty: 1,
        w: LEAST_SIDE,
        h: LEAST_SIDE,
        off,
        origin: None,
        made: 0,
        tries: empty_lists(alloc, 1)?,
        atoms: RawAtoms::new(alloc),
        order_seed: None,
        order: Vec::new(alloc),
    })
}
