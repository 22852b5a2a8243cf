//! The passes of one tile.
ghost use Rattle.std.specs.Prelude.{◌≡◌, ◌<◌, [], ◌∷◌, ◌++◌, OnOk, length};

use edge_lock::Pass;
use feast_base::NoMemory;
use std::alloc::Global;
use std::marker::Model;

/// The passes of one tile, in the order of its edges. Contracts see them as a list.
#[derive(Drop)]
pub(crate) struct TilePasses {
    passes: Vec<Pass>,
}

impl Model for TilePasses {
    ghost use Rattle.std.specs.Prelude.{List};
    ghost use Rattle.edge_lock.specs.Passes.{PassValue};

    ghost Value = { List PassValue };

    ghost view = { λ p. p.passes.items };
}

impl TilePasses {
    /// No pass.
    pub(crate) fn new(alloc: Global) -> TilePasses
        ensures { result ≡ [] }
    {
        TilePasses {
            passes: Vec::new(alloc),
        }
    }

    /// These passes.
    pub(crate) fn of(passes: Vec<Pass>) -> TilePasses
        ensures { result ≡ passes.items }
    {
        TilePasses { passes }
    }

    /// The passes as a vector.
    pub(crate) fn into_vec(self) -> Vec<Pass>
        ensures { result.items ≡ self }
    {
        let TilePasses { passes } = self;
        passes
    }

    /// Adds a pass after the others.
    pub(crate) fn push(&mut self, pass: Pass) -> Result<(), NoMemory>
        ensures { OnOk result (self.new ≡ self.old ++ pass ∷ []) }
    {
        self.passes.push(pass)?;
        Ok(())
    }

    /// Takes the first pass away.
    #[tactic(auto, using(crate::proofs::Firsts::first_removed))]
    pub(crate) fn take_first(&mut self) -> Pass
        requires { 0 < length self.old }
        ensures { self.old ≡ result ∷ self.new }
    {
        self.passes.remove(0)
    }
}
