//! Why a stage of a call halts.

use feast_base::{NoMemory, Refusal};
use std::alloc::AllocFailed;

/// What a refusal is about. It decides the status with which the call ends.
#[derive(Clone, Copy)]
pub enum Input {
    /// A file that is too long, whatever it says.
    File,
    /// The element files.
    Elements,
    /// The world.
    World,
    /// The journal.
    Journal,
    /// The code file.
    Codes,
}

/// A refusal, and the word of the file that it is in.
#[derive(Clone, Copy)]
pub struct Refused<'a> {
    pub input: Input,
    pub word: &'a str,
    pub refusal: Refusal,
}

/// Why a stage of a call halts.
#[derive(Clone, Copy)]
pub enum Halt<'a> {
    /// An input is refused.
    Refused(Refused<'a>),
    /// The load of this word failed.
    Missing(&'a str),
    /// Memory ran out.
    NoMemory,
}

impl From<NoMemory> for Halt<'_> {
    ghost use Rattle.std.specs.Prelude.{◌≡◌};
    ghost use Rattle.feast_run.specs.declared.halt.Halt.TheVariants.{NoMemory as no_memory};

    ghost from_gives = { λ _ h. h ≡ no_memory };

    fn from(_refused: NoMemory) -> Self {
        Halt::NoMemory
    }
}

impl<T: Drop> From<AllocFailed<T>> for Halt<'_> {
    ghost use Rattle.std.specs.Prelude.{◌≡◌};
    ghost use Rattle.feast_run.specs.declared.halt.Halt.TheVariants.{NoMemory as no_memory};

    ghost from_gives = { λ _ h. h ≡ no_memory };

    fn from(_refused: AllocFailed<T>) -> Self {
        Halt::NoMemory
    }
}
