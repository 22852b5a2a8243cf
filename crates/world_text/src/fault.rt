//! Why a text is not a world.

use feast_base::NoMemory;
use std::alloc::{AllocError, AllocFailed};

/// Why a text is not a world, with the number of the line, from 1.
#[derive(Clone, Copy)]
pub enum WorldFault {
    /// The first line is not one of the headers, or there is no line (70).
    BadHeader(u64),
    /// A line has none of the forms, or can't be where it is (71).
    BadLine(u64),
    /// A number is outside its range (72).
    OutOfRange(u64),
    /// No element has the name (73).
    UnknownElement(u64),
    /// An earlier line has the site (74).
    SiteTaken(u64),
    /// There are more than 1,000,000 attempts (75).
    TooManyAttempts(u64),
    /// The text ends too early; the line is the one after the last (76).
    MissingLine(u64),
    /// There was no memory.
    NoMemory,
}

impl From<AllocError> for WorldFault {
    ghost use Rattle.std.specs.Prelude.{◌≡◌};
    ghost use Rattle.world_text.specs.declared.fault.WorldFault.TheVariants.{NoMemory as no_memory};

    ghost from_gives = { λ _ e. e ≡ no_memory };

    fn from(_refused: AllocError) -> WorldFault {
        WorldFault::NoMemory
    }
}

impl<T: Drop> From<AllocFailed<T>> for WorldFault {
    ghost use Rattle.std.specs.Prelude.{◌≡◌};
    ghost use Rattle.world_text.specs.declared.fault.WorldFault.TheVariants.{NoMemory as no_memory};

    ghost from_gives = { λ _ e. e ≡ no_memory };

    fn from(_refused: AllocFailed<T>) -> WorldFault {
        WorldFault::NoMemory
    }
}

impl From<NoMemory> for WorldFault {
    ghost use Rattle.std.specs.Prelude.{◌≡◌};
    ghost use Rattle.world_text.specs.declared.fault.WorldFault.TheVariants.{NoMemory as no_memory};

    ghost from_gives = { λ _ e. e ≡ no_memory };

    fn from(_refused: NoMemory) -> WorldFault {
        WorldFault::NoMemory
    }
}
