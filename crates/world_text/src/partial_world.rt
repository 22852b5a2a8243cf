//! What the lines so far say of a world, for a text that has such lines among its own.
ghost use Rattle.std.specs.Prelude.{◌≡◌, ◌≤◌, ◌*◌, IfOk, None, OnOk, Some};
ghost use Rattle.tile_map.specs.Plane.{IsMap};
ghost use Rattle.world_text.specs.Drafts.{IsDraft, missing, nothing_said, step, too_many};
ghost use Rattle.world_text.specs.Line.{IsFormed};
ghost use Rattle.world_text.specs.Reading.{Steps};
ghost use Rattle.world_text.specs.Values.{draft_value, line_value};

use crate::draft::{Draft, nothing_said};
use crate::fault::WorldFault;
use crate::kind::Kind;
use crate::line::Line;
use crate::ranges::too_many;
use crate::raw_world::RawWorld;
use crate::step::step_line;
use feast_base::NoMemory;
use std::alloc::Global;
use std::marker::Model;

/// What the lines so far say of a world. Contracts see its numbers and lists.
pub struct PartialWorld {
    draft: Draft,
}

// Written by hand, not derived: so a caller drops it by one call.
impl Drop for PartialWorld {
    fn drop(self) {
        let PartialWorld { draft } = self;
    }
}

impl Model for PartialWorld {
    ghost use Rattle.world_text.specs.Drafts.{DraftValue};
    ghost use Rattle.world_text.specs.Values.{draft_value};

    ghost Value = { DraftValue };

    ghost view = { λ w. draft_value w.draft };
}

impl PartialWorld {
    /// Before any line. `NoMemory` if there is none for it.
    pub fn new(alloc: Global) -> Result<PartialWorld, NoMemory>
        ensures value { IfOk result (λ w. w ≡ nothing_said) }
        ensures valid { IfOk result (λ w. IsDraft w) }
    {
        Ok(PartialWorld {
            draft: nothing_said(alloc)?,
        })
    }

    /// Takes line `n`, or says why it can't be there: `BadHeader` or `BadLine` if it is out of
    /// order, then `OutOfRange`, then `TooManyAttempts`. `NoMemory` if there is none for what it
    /// says. After an error it says nothing of use.
    pub fn take(&mut self, alloc: Global, n: u64, line: &Line) -> Result<(), WorldFault>
        requires draft { IsDraft self.old }
        requires formed { IsFormed (line_value line.now) }
        ensures taken { Steps n (step n self.old (Some (line_value line.now))) self.new result }
        ensures valid { OnOk result (IsDraft self.new) }
    {
        step_line(alloc, &mut self.draft, n, line)
    }

    /// The kind of the last line.
    pub fn last(&self) -> Kind
        ensures { result ≡ self.now.last }
    {
        self.draft.last
    }

    /// How many columns the plane has.
    pub fn width(&self) -> u32
        requires { IsMap self.now.plane }
        ensures { result ≡ self.now.plane.tx * self.now.plane.w }
    {
        self.draft.tx * self.draft.w
    }

    /// How many rows the plane has.
    pub fn height(&self) -> u32
        requires { IsMap self.now.plane }
        ensures { result ≡ self.now.plane.ty * self.now.plane.h }
    {
        self.draft.ty * self.draft.h
    }

    /// Whether a line asks for more than 1,000,000 attempts in total.
    pub fn is_too_many(&self, line: &Line) -> bool
        ensures { result ≡ too_many self.now (line_value line.now) }
    {
        too_many(&self.draft, line)
    }

    /// What the lines say, if none is missing.
    pub fn into_raw(self) -> RawWorld
        requires draft { IsDraft self }
        requires whole { missing self.last ≡ None }
        ensures { result ≡ self }
    {
        let PartialWorld { draft } = self;
        RawWorld::new(draft)
    }
}
