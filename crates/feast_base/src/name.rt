//! Names.
ghost use Rattle.std.specs.Prelude.{◌≡◌, ℕ, List, IfOk};

use crate::NoMemory;
use std::alloc::Global;
use std::marker::Model;

/// A name, seen as its bytes.
#[derive(Drop)]
pub struct Name {
    bytes: Vec<u8>,
}

impl Model for Name {
    ghost Value = { List ℕ };

    ghost view = { λ n. n.bytes.items };
}

impl Name {
    /// A name of these bytes. `NoMemory` if they can't be kept.
    pub fn new(alloc: Global, bytes: &[u8]) -> Result<Name, NoMemory>
        ensures { IfOk result (λ n. n ≡ bytes.now) }
    {
        let bytes = Vec::from_slice(alloc, bytes)?;
        Ok(Name { bytes })
    }

    /// The bytes of the name.
    pub fn bytes(&self) -> &[u8]
        ensures { result.now ≡ self.now }
    {
        self.bytes.as_slice()
    }
}
