//! What the text of a chain says.
ghost use Rattle.std.specs.Prelude.{◌≡◌, None};
ghost use Rattle.chain_text.specs.Drafts.{IsChainDraft, missing};
ghost use Rattle.chain_text.specs.Values.{draft_value};

use crate::draft::Draft;
use std::marker::Model;

/// What the text of a chain says, before its atoms have their types. Contracts see its numbers and
/// lists.
pub struct RawChain {
    draft: Draft,
}

// Written by hand, not derived: so a caller drops it by one call.
impl Drop for RawChain {
    fn drop(self) {
        let RawChain { draft } = self;
    }
}

impl Model for RawChain {
    ghost use Rattle.std.specs.Prelude.{◌≡◌, None};
    ghost use Rattle.chain_text.specs.Drafts.{ChainDraft, IsChainDraft, missing};
    ghost use Rattle.chain_text.specs.Values.{draft_value};

    ghost Value = { ChainDraft };

    ghost view = { λ w. draft_value w.draft };

    ghost invariant = { λ w. IsChainDraft (draft_value w.draft) × (missing w.draft.stage w.draft.world.last ≡ None) };
}

impl RawChain {
    /// What some lines say, if none is missing.
    pub(crate) fn new(draft: Draft) -> RawChain
        requires draft { IsChainDraft (draft_value draft) }
        requires whole { missing draft.stage draft.world.last ≡ None }
        ensures { result ≡ draft_value draft }
    {
        RawChain { draft }
    }

    /// What the lines say.
    pub(crate) fn into_draft(self) -> Draft
        ensures draft { draft_value result ≡ self }
        ensures valid { IsChainDraft self }
        ensures whole { missing self.stage self.world.last ≡ None }
    {
        let RawChain { draft } = self;
        draft
    }
}
