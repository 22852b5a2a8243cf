//! Why classes have no layout.

use feast_base::Place;
use std::alloc::{AllocError, AllocFailed};
use thiserror::Error;

/// The first class that takes too many bits: the place of its name, and the number of its bits, or
/// 2^64 - 1 if there are more.
#[derive(Clone, Copy, Debug, Error)]
pub enum LayoutFault {
    /// A quark of more than 32 bits.
    #[error("quark takes more than 32 bits")]
    QuarkTooWide(Place, u64),
    /// An element of more than 71 bits.
    #[error("element takes more than 71 bits")]
    ElementTooWide(Place, u64),
    /// Memory ran out.
    #[error("out of memory")]
    NoMemory,
}

impl From<AllocError> for LayoutFault {
    ghost use Rattle.std.specs.Prelude.{◌≡◌};
    ghost use Rattle.atom_layout.specs.declared.fault.LayoutFault.TheVariants.{NoMemory};

    ghost from_gives = { λ _ e. e ≡ NoMemory };

    fn from(_refused: AllocError) -> LayoutFault {
        LayoutFault::NoMemory
    }
}

impl<T: Drop> From<AllocFailed<T>> for LayoutFault {
    ghost use Rattle.std.specs.Prelude.{◌≡◌};
    ghost use Rattle.atom_layout.specs.declared.fault.LayoutFault.TheVariants.{NoMemory};

    ghost from_gives = { λ _ e. e ≡ NoMemory };

    fn from(_refused: AllocFailed<T>) -> LayoutFault {
        LayoutFault::NoMemory
    }
}
