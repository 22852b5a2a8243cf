//! Why reading stops.

use feast_base::NoMemory;
use std::alloc::{AllocError, AllocFailed};

/// Why reading stops.
#[derive(Clone, Copy)]
pub enum Halt {
    /// Memory ran out.
    NoMemory,
    /// A byte is wrong or missing. The number is how many bytes are left, including the wrong one.
    Bad(usize),
}

impl From<AllocError> for Halt {
    ghost use Rattle.std.specs.Prelude.{◌≡◌};
    ghost use Rattle.code_file.specs.declared.halt.Halt.TheVariants.{NoMemory as no_memory};

    ghost from_gives = { λ _ e. e ≡ no_memory };

    fn from(_refused: AllocError) -> Halt {
        Halt::NoMemory
    }
}

impl<T: Drop> From<AllocFailed<T>> for Halt {
    ghost use Rattle.std.specs.Prelude.{◌≡◌};
    ghost use Rattle.code_file.specs.declared.halt.Halt.TheVariants.{NoMemory as no_memory};

    ghost from_gives = { λ _ e. e ≡ no_memory };

    fn from(_refused: AllocFailed<T>) -> Halt {
        Halt::NoMemory
    }
}

impl From<NoMemory> for Halt {
    ghost use Rattle.std.specs.Prelude.{◌≡◌};
    ghost use Rattle.code_file.specs.declared.halt.Halt.TheVariants.{NoMemory as no_memory};

    ghost from_gives = { λ _ e. e ≡ no_memory };

    fn from(_refused: NoMemory) -> Halt {
        Halt::NoMemory
    }
}
