//! The names whose load failed.
ghost use Rattle.std.specs.Prelude.{◌≡◌, ◌++◌, ◌∷◌, [], OnOk, OnErr};
ghost use Rattle.feast_base.specs.Loading.{IsNoted};

use crate::{LoadFault, Name, NoMemory};
use std::alloc::Global;

/// Appends a name to others.
fn keep(alloc: Global, names: &mut Vec<Name>, name: &str) -> Result<(), NoMemory>
    ensures ok { OnOk result (names.new.items ≡ names.old.items ++ name.now ∷ []) }
    ensures err { OnErr result (names.new.items ≡ names.old.items) }
{
    names.push(Name::new(alloc, name.as_bytes())?)?;
    Ok(())
}

/// Notes the name of a load that failed. The answer is `Failed`, or that memory ran out.
pub(crate) fn note(alloc: Global, failed: &mut Vec<Name>, name: &str) -> LoadFault
    ensures { IsNoted failed.old.items failed.new.items name.now result }
{
    match keep(alloc, failed, name) {
        Ok(()) => LoadFault::Failed,
        Err(NoMemory) => LoadFault::NoMemory,
    }
}
