//! The atoms that lines place, and the names of their types.
ghost use Rattle.std.specs.Prelude.{◌≡◌, ◌++◌, ◌∷◌, ◌<◌, All, IfOk, List, OnOk, [], length, slice_index_or, ℕ};
ghost use Rattle.world_text.specs.declared.atoms.NumberedAtom.{NumberedAtom};
ghost use Rattle.world_text.specs.Atoms.{raw_atoms};
ghost use Rattle.world_text.specs.Drafts.{raw_atom};

use feast_base::{Name, NoMemory};
use std::alloc::Global;
use std::marker::Model;

/// How many names are found again.
const RECENT_NAMES: usize = 64;

/// An atom that a line places, that line's number, and the number of the atom's name.
#[derive(Clone, Copy)]
pub(crate) struct NumberedAtom {
    pub(crate) line: u64,
    pub(crate) x: u32,
    pub(crate) y: u32,
    pub(crate) name: usize,
    pub(crate) state: u128,
}

/// The atoms that lines place, and their names. A name that many atoms have is mostly kept once.
#[derive(Drop)]
pub(crate) struct RawAtoms {
    names: Vec<Name>,
    recent: [usize; RECENT_NAMES],
    atoms: Vec<NumberedAtom>,
}

impl Model for RawAtoms {
    ghost use Rattle.std.specs.Prelude.{◌<◌, All, length};
    ghost use Rattle.world_text.specs.Atoms.{AtomsValue};
    ghost use Rattle.world_text.specs.declared.atoms.NumberedAtom.{NumberedAtom};

    ghost Value = { AtomsValue };

    ghost view = { λ v. record { names = v.names.items; atoms = v.atoms.items } };

    ghost invariant = { λ v. All (λ (a : NumberedAtom). a.name < length v.names.items) v.atoms.items };
}

/// Where the number of a name is looked for.
fn recent_place(name: &[u8]) -> usize
    ensures { result < RECENT_NAMES }
{
    let len = name.len();
    if len == 0 {
        return 0;
    }
    (name[0] as usize * 5 + name[len - 1] as usize * 3 + len % RECENT_NAMES) % RECENT_NAMES
}

/// The number of a name. It is kept once more unless it is one of the recent.
fn number_of(
    alloc: Global,
    names: &mut Vec<Name>,
    recent: &mut [usize; RECENT_NAMES],
    name: &[u8],
) -> Result<usize, NoMemory>
    ensures kept { (more : List (List ℕ)) × (names.new.items ≡ names.old.items ++ more) }
    ensures number { IfOk result (λ n. (n < length names.new.items) × (slice_index_or names.new.items n [] ≡ name.now)) }
{
    let place = recent_place(name);
    let number = recent[place];
    if number < names.len() && names[number].bytes() == name {
        return Ok(number);
    }
    let number = names.len();
    names.push(Name::new(alloc, name)?)?;
    recent[place] = number;
    Ok(number)
}

impl RawAtoms {
    /// No atoms.
    pub(crate) fn new(alloc: Global) -> RawAtoms
        ensures { raw_atoms result ≡ [] }
    {
        RawAtoms {
            names: Vec::new(alloc),
            recent: [0; RECENT_NAMES],
            atoms: Vec::new(alloc),
        }
    }

    /// Adds an atom at a column and a row. `NoMemory` if there is none for it.
    pub(crate) fn push(
        &mut self,
        alloc: Global,
        line: u64,
        site: (u32, u32),
        name: &[u8],
        state: u128,
    ) -> Result<(), NoMemory>
        ensures { OnOk result (raw_atoms self.new ≡ raw_atoms self.old ++ raw_atom line site.0 site.1 name.now state ∷ []) }
    {
        let (x, y) = site;
        let name = number_of(alloc, &mut self.names, &mut self.recent, name)?;
        self.atoms.push(NumberedAtom {
            line,
            x,
            y,
            name,
            state,
        })?;
        Ok(())
    }

    /// The names, the first of which has number 0.
    pub(crate) fn names(&self) -> &[Name]
        ensures { result.now ≡ self.now.names }
    {
        self.names.as_slice()
    }

    /// The atoms, in the order of their lines.
    pub(crate) fn atoms(&self) -> &[NumberedAtom]
        ensures atoms { result.now ≡ self.now.atoms }
        ensures numbered { All (λ (a : NumberedAtom). a.name < length self.now.names) self.now.atoms }
    {
        self.atoms.as_slice()
    }
}
