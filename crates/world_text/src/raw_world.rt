//! What the text of a world says.
ghost use Rattle.std.specs.Prelude.{◌≡◌, ◌≤◌, None};
ghost use Rattle.tile_map.specs.Plane.{tiles_of};
ghost use Rattle.world_text.specs.Drafts.{IsDraft, missing};
ghost use Rattle.world_text.specs.Values.{draft_value};
ghost use Rattle.feast_base.specs.declared.limits.TheConstants.{MOST_TILES};

use crate::draft::Draft;
use std::marker::Model;

/// What the text of a world says, before its atoms have their types. Contracts see its numbers and
/// lists.
pub struct RawWorld {
    draft: Draft,
}

// Written by hand, not derived: so a caller drops it by one call.
impl Drop for RawWorld {
    fn drop(self) {
        let RawWorld { draft } = self;
    }
}

impl Model for RawWorld {
    ghost use Rattle.std.specs.Prelude.{◌≡◌, None};
    ghost use Rattle.world_text.specs.Drafts.{DraftValue, IsDraft, missing};
    ghost use Rattle.world_text.specs.Values.{draft_value};

    ghost Value = { DraftValue };

    ghost view = { λ w. draft_value w.draft };

    ghost invariant = { λ w. IsDraft (draft_value w.draft) × (missing w.draft.last ≡ None) };
}

impl RawWorld {
    /// What some lines say, if none is missing.
    pub(crate) fn new(draft: Draft) -> RawWorld
        requires draft { IsDraft (draft_value draft) }
        requires whole { missing draft.last ≡ None }
        ensures { result ≡ draft_value draft }
    {
        RawWorld { draft }
    }

    /// What the lines say.
    pub(crate) fn into_draft(self) -> Draft
        ensures draft { draft_value result ≡ self }
        ensures valid { IsDraft self }
        ensures whole { missing self.last ≡ None }
    {
        let RawWorld { draft } = self;
        draft
    }

    /// What holds of every text that `read` takes. It does nothing.
    pub(crate) fn laws(&self)
        ensures { IsDraft self.now }
    {
        // The proof takes what holds of the draft from this reading of it.
        let _ = &self.draft;
    }

    /// How many tiles there are, including those that are off: 1 to 64.
    pub fn tiles(&self) -> u32
        ensures value { result ≡ tiles_of self.now.plane }
        ensures few { result ≤ MOST_TILES }
    {
        self.draft.tx * self.draft.ty
    }
}
