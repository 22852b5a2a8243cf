//! What the lines so far say of a chain.
ghost use Rattle.std.specs.Prelude.{◌≡◌, IfOk};
ghost use Rattle.chain_text.specs.Drafts.{IsChainDraft, nothing_said};
ghost use Rattle.chain_text.specs.Values.{draft_value};

use crate::chain::Journal;
use crate::raw_act::NumberedAct;
use crate::stage::Stage;
use feast_base::NoMemory;
use std::alloc::Global;
use world_text::PartialWorld;

/// What the lines so far say of a chain.
#[derive(Drop)]
pub(crate) struct Draft {
    pub(crate) stage: Stage,
    pub(crate) world: PartialWorld,
    pub(crate) legs: u32,
    pub(crate) first: u32,
    pub(crate) journal: Journal,
    pub(crate) leg: u32,
    pub(crate) every: Vec<NumberedAct>,
    pub(crate) once: Vec<NumberedAct>,
}

/// Before any line.
pub(crate) fn nothing_said(alloc: Global) -> Result<Draft, NoMemory>
    ensures value { IfOk result (λ d. draft_value d ≡ nothing_said) }
    ensures valid { IfOk result (λ d. IsChainDraft (draft_value d)) }
{
    Ok(Draft {
        stage: Stage::Plane,
        world: PartialWorld::new(alloc)?,
        legs: 1,
        first: 1,
        journal: Journal::Whole,
        leg: 1,
        every: Vec::new(alloc),
        once: Vec::new(alloc),
    })
}
