//! The elements of a world: those of element files, or those of a code file.
ghost use Rattle.std.specs.Prelude.{◌≡◌, IfOk};
ghost use Rattle.feast_run.specs.Acting.{acts};
ghost use Rattle.feast_run.specs.Values.{elements_value};

use cell_grid::Behave;
use code_file::{CodeActor, CodeSet};
use element_set::{Actor, ElementSet};
use feast_base::{Name, NoMemory};
use std::alloc::Global;
use window_sites::Window;

/// The elements of a world.
pub enum Elements {
    /// Those of element files.
    Sources(ElementSet),
    /// Those of a code file.
    Codes(CodeSet),
}

// Written by hand, not derived: so a caller drops it by one call.
impl Drop for Elements {
    fn drop(self) {
        match self {
            Elements::Sources(set) => {}
            Elements::Codes(set) => {}
        }
    }
}

/// What acts on windows as the elements of a world do.
pub enum ElementActor<'a> {
    /// As the source of element files means.
    Source(Actor<'a>),
    /// As the codes of a code file do.
    Code(CodeActor<'a>),
}

// Written by hand, not derived: so a caller drops it by one call.
impl Drop for ElementActor<'_> {
    fn drop(self) {
        match self {
            ElementActor::Source(actor) => {}
            ElementActor::Code(actor) => {}
        }
    }
}

impl Behave for ElementActor<'_> {
    ghost use Rattle.feast_run.specs.Acting.{acts, idle-acts};

    ghost after = { λ a. acts a };

    ghost idle = { idle-acts };

    fn act(&mut self, window: &mut Window, seed: u64) {
        match self {
            ElementActor::Source(actor) => actor.act(window, seed),
            ElementActor::Code(actor) => actor.act(window, seed),
        }
    }
}

impl Elements {
    /// The names of the elements, in the order of their type numbers.
    pub fn names(&self) -> &[Name]
        ensures { result.now ≡ (elements_value self.now).names }
    {
        match self {
            Elements::Sources(set) => set.names(),
            Elements::Codes(set) => set.names(),
        }
    }

    /// What acts on windows as these elements do. All its memory is allocated here; `NoMemory` if
    /// that is refused.
    pub fn actor(&self, alloc: Global) -> Result<ElementActor<'_>, NoMemory>
        ensures { IfOk result (λ a. acts a ≡ (elements_value self.now).meaning) }
    {
        match self {
            Elements::Sources(set) => Ok(ElementActor::Source(set.actor(alloc)?)),
            Elements::Codes(set) => Ok(ElementActor::Code(set.actor(alloc)?)),
        }
    }
}
