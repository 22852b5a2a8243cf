//! Why files have no resolution.

use feast_base::{NoMemory, Place};
use std::alloc::AllocFailed;
use thiserror::Error;

/// The first name in the files that breaks a rule, and where it stands.
#[derive(Clone, Copy, Debug, Error)]
pub enum NameFault {
    /// A name declared twice in one scope, or a class or typedef with the name of a built-in type;
    /// the second name.
    #[error("name declared twice")]
    DuplicateName(Place),
    /// A name that is not in scope, not a member, or not a class.
    #[error("unknown name")]
    UnknownName(Place),
    /// A quark that contains itself; its name.
    #[error("quark contains itself")]
    CyclicQuark(Place),
    /// An element without `Void behave()`; its name.
    #[error("no behave")]
    NoBehave(Place),
    /// A constant whose value is not of its kind or not in the range of its type; its name.
    #[error("bad constant")]
    BadConstant(Place),
    /// The first declaration above a limit; its name.
    #[error("too many")]
    TooMany(Place),
    /// A width out of its range or on a type that takes none, or a type that may not stand there;
    /// the name of the type. For the length of an array the name of the member.
    #[error("bad width")]
    BadWidth(Place),
    /// Memory ran out.
    #[error("out of memory")]
    NoMemory,
}

impl<T: Drop> From<AllocFailed<T>> for NameFault {
    ghost use Rattle.std.specs.Prelude.{◌≡◌};
    ghost use Rattle.ulam_names.specs.declared.fault.NameFault.TheVariants.{NoMemory};

    ghost from_gives = { λ _ e. e ≡ NoMemory };

    fn from(_refused: AllocFailed<T>) -> NameFault {
        NameFault::NoMemory
    }
}

impl From<NoMemory> for NameFault {
    ghost use Rattle.std.specs.Prelude.{◌≡◌};
    ghost use Rattle.ulam_names.specs.declared.fault.NameFault.TheVariants.{NoMemory as no_memory};

    ghost from_gives = { λ _ e. e ≡ no_memory };

    fn from(_refused: NoMemory) -> NameFault {
        NameFault::NoMemory
    }
}
