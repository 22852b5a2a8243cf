//! The set of the elements of generated worlds.
ghost use Rattle.std.specs.Prelude.{◌≡◌, IfOk, codes};
ghost use Rattle.element_set.specs.Sets.{AcceptsFiles, set_value};
ghost use Rattle.feast_run.specs.GeneratedElements.{source_files, source_text};

use element_set::{BuildFault, ElementSet};
use feast_base::{NoMemory, Source};
use std::alloc::Global;

/// The file that holds the source of the elements.
fn source(alloc: Global) -> Result<Source, NoMemory>
    ensures { IfOk result (λ s. s ≡ (codes "generated", source_text)) }
{
    let text =
        b"element Wander { EventWindow ew; Random random; Void behave() {\n  Unsigned i = random.create(4) + 1; if (ew.isEmpty(i)) ew.swap(0, i); } }\nelement Stone { Void behave() { } }\n";
    let bytes = Vec::from_slice(alloc, text)?;
    Source::new(alloc, "generated", bytes)
}

/// The set of the elements of generated worlds: `Wander` has the type number 1, `Stone` 2.
/// `NoMemory` if the set can't be built or kept; nothing else refuses it.
pub fn elements(alloc: Global) -> Result<ElementSet, NoMemory>
    ensures { IfOk result (λ set. AcceptsFiles source_files (set_value set)) }
{
    let files = [source(alloc)?];
    match ElementSet::build(alloc, &files) {
        Ok(set) => Ok(set),
        Err(BuildFault::NoMemory) => Err(NoMemory),
        Err(BuildFault::Refused(_)) => unreachable!(),
    }
}
