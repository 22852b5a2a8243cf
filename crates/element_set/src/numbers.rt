//! Names by their numbers.
ghost use Rattle.std.specs.Prelude.{◌≡◌, ◌<◌, ◌≤◌, [], ◌∷◌, ◌++◌, suc, length, position, bytes_eq, option_map, IsFalse, OnOk, IfOk};
ghost use Rattle.element_set.specs.Names.{AreNew};
ghost use Rattle.ulam_names.specs.Scopes.{is_among};
ghost use Rattle.ulam_names.specs.declared.limits.TheConstants.{MOST_CLASSES};

use feast_base::{Name, NoMemory};
use indexmap::IndexSet;
use std::alloc::Global;
use std::marker::Model;

/// Names in the order in which they came, each once, at most as many as there may be classes.
#[derive(Drop)]
pub struct Numbers {
    set: IndexSet<Vec<u8>>,
}

impl Model for Numbers {
    ghost use Rattle.std.specs.Prelude.{List, ℕ, length, map, ◌≤◌};
    ghost use Rattle.element_set.specs.Names.{key_name};
    ghost use Rattle.ulam_names.specs.declared.limits.TheConstants.{MOST_CLASSES};

    ghost Value = { List (List ℕ) };

    ghost view = { λ n. map key_name n.set.keys };

    ghost invariant = { λ n. length n.set.keys ≤ MOST_CLASSES };
}

impl Numbers {
    /// No name.
    fn new(alloc: Global) -> Numbers
        ensures { result ≡ [] }
    {
        Numbers {
            set: IndexSet::new(alloc),
        }
    }

    /// The number of a name: the first has 1.
    #[tactic(auto, using(crate::proofs::Numbering::number_is))]
    pub fn number(&self, name: &[u8]) -> Option<u16>
        ensures { result ≡ option_map suc (position (bytes_eq name.now) self.now) }
    {
        match self.set.get_index_of(name) {
            Some(index) => Some(index as u16 + 1),
            None => None,
        }
    }

    /// Adds a new name.
    #[tactic(auto, using(crate::proofs::Numbering::added_is))]
    fn add(&mut self, name: Vec<u8>) -> Result<(), NoMemory>
        requires new { IsFalse (is_among name.items self.old) }
        requires room { length self.old < MOST_CLASSES }
        ensures { OnOk result (self.new ≡ self.old ++ name.items ∷ []) }
    {
        self.set.insert(name)?;
        Ok(())
    }
}

/// Names by their numbers.
pub fn numbers_of(alloc: Global, names: &[Name]) -> Result<Numbers, NoMemory>
    requires few { length names.now ≤ MOST_CLASSES }
    requires new { AreNew [] names.now }
    ensures { IfOk result (λ n. n ≡ names.now) }
{
    let mut found = Numbers::new(alloc);
    for name in names {
        found.add(Vec::from_slice(alloc, name.bytes())?)?;
    }
    Ok(found)
}
