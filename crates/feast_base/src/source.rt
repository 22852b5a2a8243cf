//! Files as they were read.
ghost use Rattle.std.specs.Prelude.{◌≡◌, IfOk};
ghost use Rattle.feast_base.specs.Outside.{file_bytes, file_name};

use crate::NoMemory;
use std::alloc::Global;
use std::marker::Model;

/// A file, seen as its name and its bytes.
#[derive(Drop)]
pub struct Source {
    name: String,
    bytes: Vec<u8>,
}

impl Model for Source {
    ghost use Rattle.std.specs.Prelude.{string_bytes};
    ghost use Rattle.feast_base.specs.Outside.{File};

    ghost Value = { File };

    ghost view = { λ s. (string_bytes s.name, s.bytes.items) };
}

impl Source {
    /// A file of this name and these bytes. `NoMemory` if the name can't be kept.
    pub fn new(alloc: Global, name: &str, bytes: Vec<u8>) -> Result<Source, NoMemory>
        ensures { IfOk result (λ s. s ≡ (name.now, bytes.items)) }
    {
        let name = String::from_str(alloc, name)?;
        Ok(Source { name, bytes })
    }

    /// The name of the file.
    pub fn name(&self) -> &str
        ensures { result.now ≡ file_name self.now }
    {
        self.name.as_str()
    }

    /// The bytes of the file.
    pub fn bytes(&self) -> &[u8]
        ensures { result.now ≡ file_bytes self.now }
    {
        self.bytes.as_slice()
    }
}
