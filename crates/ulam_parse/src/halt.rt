//! Why reading ended without a tree.

use feast_base::NoMemory;
use std::alloc::AllocFailed;

/// Why reading ended without a tree.
#[derive(Clone, Copy)]
pub enum Halt {
    /// Memory ran out.
    NoMemory,
    /// No tree has the next token after those read so far, or the tokens ended before a tree did.
    /// The number is how many tokens were left, from the next one to the last.
    Left(usize),
    /// The limit on steps was reached. It is more than the number of tokens, so this never happens.
    OutOfSteps,
}

impl<T: Drop> From<AllocFailed<T>> for Halt {
    ghost use Rattle.std.specs.Prelude.{◌≡◌};
    ghost use Rattle.ulam_parse.specs.declared.halt.Halt.TheVariants.{NoMemory};

    ghost from_gives = { λ _ e. e ≡ NoMemory };

    fn from(_: AllocFailed<T>) -> Halt {
        Halt::NoMemory
    }
}

impl From<NoMemory> for Halt {
    ghost use Rattle.std.specs.Prelude.{◌≡◌};
    ghost use Rattle.ulam_parse.specs.declared.halt.Halt.TheVariants.{NoMemory};

    ghost from_gives = { λ _ e. e ≡ NoMemory };

    fn from(_: NoMemory) -> Halt {
        Halt::NoMemory
    }
}
