//! Why bytes are not a code file.

use feast_base::NoMemory;
use std::alloc::{AllocError, AllocFailed};

/// Why bytes are not a code file. The number is the position of a byte, counted from 1.
#[derive(Clone, Copy)]
pub enum CodeFault {
    /// The first 8 bytes are wrong or missing (61).
    BadMagic,
    /// The first byte at which the bytes no longer begin any file, or the position after the last
    /// byte if the file is cut short (62).
    BadForm(u64),
    /// The code of an element is not valid. The byte is the first of the length of its name (63).
    NotValid(u64),
    /// An element has the name of an earlier one. The byte is the first of the length of its name
    /// (64).
    SameName(u64),
    /// Memory ran out.
    NoMemory,
}

impl From<AllocError> for CodeFault {
    ghost use Rattle.std.specs.Prelude.{◌≡◌};
    ghost use Rattle.code_file.specs.declared.fault.CodeFault.TheVariants.{NoMemory as no_memory};

    ghost from_gives = { λ _ e. e ≡ no_memory };

    fn from(_refused: AllocError) -> CodeFault {
        CodeFault::NoMemory
    }
}

impl<T: Drop> From<AllocFailed<T>> for CodeFault {
    ghost use Rattle.std.specs.Prelude.{◌≡◌};
    ghost use Rattle.code_file.specs.declared.fault.CodeFault.TheVariants.{NoMemory as no_memory};

    ghost from_gives = { λ _ e. e ≡ no_memory };

    fn from(_refused: AllocFailed<T>) -> CodeFault {
        CodeFault::NoMemory
    }
}

impl From<NoMemory> for CodeFault {
    ghost use Rattle.std.specs.Prelude.{◌≡◌};
    ghost use Rattle.code_file.specs.declared.fault.CodeFault.TheVariants.{NoMemory as no_memory};

    ghost from_gives = { λ _ e. e ≡ no_memory };

    fn from(_refused: NoMemory) -> CodeFault {
        CodeFault::NoMemory
    }
}
