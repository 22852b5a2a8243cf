//! Why a program has no types.

use feast_base::{NoMemory, Place};
use std::alloc::{AllocError, AllocFailed};
use thiserror::Error;

/// The first place of a program that breaks a rule of types.
#[derive(Clone, Copy, Debug, Error)]
pub enum TypeFault {
    /// A type that is not allowed; the place of the operator, of the name of the type, of the
    /// keyword of a `return`, or of the first token.
    #[error("wrong type")]
    WrongType(Place),
    /// A signed number with an unsigned one; the place of the operator.
    #[error("signed with unsigned")]
    MixedSigns(Place),
    /// A value that can't be assigned, passed or returned; the place of the first token of the left
    /// side or of the call, of the name that is declared, or of the keyword.
    #[error("not assignable")]
    NotAssignable(Place),
    /// A call with more or fewer arguments than there are parameters; the place of its first token.
    #[error("wrong number of arguments")]
    WrongCount(Place),
    /// A class that is no element, or a name before `as` that is no local or parameter of type
    /// `Atom`; the place of that name.
    #[error("not an element")]
    BadAs(Place),
    /// `break` or `continue` outside a loop; the place of the keyword.
    #[error("not in a loop")]
    BreakOutside(Place),
    /// A function with a result whose end can be reached; the place of its name.
    #[error("missing return")]
    MissingReturn(Place),
    /// Memory ran out.
    #[error("out of memory")]
    NoMemory,
}

impl From<AllocError> for TypeFault {
    ghost use Rattle.std.specs.Prelude.{◌≡◌};
    ghost use Rattle.ulam_types.specs.declared.fault.TypeFault.TheVariants.{NoMemory};

    ghost from_gives = { λ _ e. e ≡ NoMemory };

    fn from(_refused: AllocError) -> TypeFault {
        TypeFault::NoMemory
    }
}

impl<T: Drop> From<AllocFailed<T>> for TypeFault {
    ghost use Rattle.std.specs.Prelude.{◌≡◌};
    ghost use Rattle.ulam_types.specs.declared.fault.TypeFault.TheVariants.{NoMemory};

    ghost from_gives = { λ _ e. e ≡ NoMemory };

    fn from(_refused: AllocFailed<T>) -> TypeFault {
        TypeFault::NoMemory
    }
}

impl From<NoMemory> for TypeFault {
    ghost use Rattle.std.specs.Prelude.{◌≡◌};
    ghost use Rattle.ulam_types.specs.declared.fault.TypeFault.TheVariants.{NoMemory as no_memory};

    ghost from_gives = { λ _ e. e ≡ no_memory };

    fn from(_refused: NoMemory) -> TypeFault {
        TypeFault::NoMemory
    }
}
