//! Why elements have no code.

use feast_base::{NoMemory, Place};
use thiserror::Error;

/// The first element whose code the limits don't let through, or that memory ran out.
#[derive(Clone, Copy, Debug, Error)]
pub enum GenFault {
    /// The code would have more than 65,536 instructions, or more than 512 operands at some place.
    /// The place is that of the element's name.
    #[error("code of the element is too long")]
    CodeTooLong(Place),
    /// Memory ran out.
    #[error("out of memory")]
    NoMemory,
}

impl From<NoMemory> for GenFault {
    ghost use Rattle.std.specs.Prelude.{◌≡◌};
    ghost use Rattle.code_gen.specs.declared.fault.GenFault.TheVariants.{NoMemory};

    ghost from_gives = { λ _ e. e ≡ NoMemory };

    fn from(_refused: NoMemory) -> GenFault {
        GenFault::NoMemory
    }
}
