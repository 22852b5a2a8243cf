//! Why files are not a set of elements.
ghost use Rattle.std.specs.Prelude.{◌≡◌};
ghost use Rattle.element_set.specs.Faults as spec;
ghost use Rattle.element_set.specs.declared.fault.BuildFault.TheVariants as fault;

use atom_layout::LayoutFault;
use code_gen::GenFault;
use feast_base::{NoMemory, Place, Refusal};
use std::alloc::{AllocError, AllocFailed};
use thiserror::Error;
use ulam_heirs::HeirsFault;
use ulam_lex::LexFault;
use ulam_names::NameFault;
use ulam_parse::ParseFault;
use ulam_types::TypeFault;

/// Why files are not a set of elements.
#[derive(Clone, Copy, Debug, Error)]
pub enum BuildFault {
    /// The refusal of the first stage that refuses. The file of its place is a number among the
    /// files to be built.
    #[error("refused")]
    Refused(Refusal),
    /// Memory ran out.
    #[error("out of memory")]
    NoMemory,
}

/// A refusal whose text shows a number.
fn refusal_with_value(code: u8, place: Place, value: u64) -> BuildFault
    ensures { result ≡ fault.Refused (spec.refusal_with_value code place value) }
{
    BuildFault::Refused(Refusal { code, place, value })
}

/// A refusal whose text shows none.
fn refusal(code: u8, place: Place) -> BuildFault
    ensures { result ≡ fault.Refused (spec.refusal code place) }
{
    refusal_with_value(code, place, 0)
}

impl From<LexFault> for BuildFault {
    ghost use Rattle.std.specs.Prelude.{◌≡◌};
    ghost use Rattle.element_set.specs.Faults.{lex_fault};

    ghost from_gives = { λ f e. e ≡ lex_fault f };

    fn from(fault: LexFault) -> BuildFault {
        match fault {
            LexFault::BadByte(at) => refusal(10, at),
            LexFault::OpenComment(at) => refusal(11, at),
            LexFault::NumberTooLarge(at) => refusal(12, at),
            LexFault::TooManyTokens(at) => refusal(13, at),
            LexFault::NoMemory => BuildFault::NoMemory,
        }
    }
}

impl From<ParseFault> for BuildFault {
    ghost use Rattle.std.specs.Prelude.{◌≡◌};
    ghost use Rattle.element_set.specs.Faults.{parse_fault};

    ghost from_gives = { λ f e. e ≡ parse_fault f };

    fn from(fault: ParseFault) -> BuildFault {
        match fault {
            ParseFault::Syntax(at) => refusal(20, at),
            ParseFault::TooDeep(at) => refusal(21, at),
            ParseFault::NoMemory => BuildFault::NoMemory,
        }
    }
}

impl From<HeirsFault> for BuildFault {
    ghost use Rattle.std.specs.Prelude.{◌≡◌};
    ghost use Rattle.element_set.specs.Faults.{heirs_fault};

    ghost from_gives = { λ f e. e ≡ heirs_fault f };

    fn from(fault: HeirsFault) -> BuildFault {
        match fault {
            HeirsFault::NotQuark(at) => refusal(37, at),
            HeirsFault::OwnBase(at) => refusal(38, at),
            HeirsFault::BadOverride(at) => refusal(39, at),
            HeirsFault::NoMemory => BuildFault::NoMemory,
        }
    }
}

impl From<NameFault> for BuildFault {
    ghost use Rattle.std.specs.Prelude.{◌≡◌};
    ghost use Rattle.element_set.specs.Faults.{name_fault};

    ghost from_gives = { λ f e. e ≡ name_fault f };

    fn from(fault: NameFault) -> BuildFault {
        match fault {
            NameFault::DuplicateName(at) => refusal(30, at),
            NameFault::UnknownName(at) => refusal(31, at),
            NameFault::CyclicQuark(at) => refusal(32, at),
            NameFault::NoBehave(at) => refusal(33, at),
            NameFault::BadConstant(at) => refusal(34, at),
            NameFault::TooMany(at) => refusal(35, at),
            NameFault::BadWidth(at) => refusal(36, at),
            NameFault::NoMemory => BuildFault::NoMemory,
        }
    }
}

impl From<LayoutFault> for BuildFault {
    ghost use Rattle.std.specs.Prelude.{◌≡◌};
    ghost use Rattle.element_set.specs.Faults.{layout_fault};

    ghost from_gives = { λ f e. e ≡ layout_fault f };

    fn from(fault: LayoutFault) -> BuildFault {
        match fault {
            LayoutFault::QuarkTooWide(at, bits) => refusal_with_value(40, at, bits),
            LayoutFault::ElementTooWide(at, bits) => refusal_with_value(41, at, bits),
            LayoutFault::NoMemory => BuildFault::NoMemory,
        }
    }
}

impl From<TypeFault> for BuildFault {
    ghost use Rattle.std.specs.Prelude.{◌≡◌};
    ghost use Rattle.element_set.specs.Faults.{type_fault};

    ghost from_gives = { λ f e. e ≡ type_fault f };

    fn from(fault: TypeFault) -> BuildFault {
        match fault {
            TypeFault::WrongType(at) => refusal(50, at),
            TypeFault::MixedSigns(at) => refusal(51, at),
            TypeFault::NotAssignable(at) => refusal(52, at),
            TypeFault::WrongCount(at) => refusal(53, at),
            TypeFault::BadAs(at) => refusal(54, at),
            TypeFault::BreakOutside(at) => refusal(55, at),
            TypeFault::MissingReturn(at) => refusal(56, at),
            TypeFault::NoMemory => BuildFault::NoMemory,
        }
    }
}

impl From<GenFault> for BuildFault {
    ghost use Rattle.std.specs.Prelude.{◌≡◌};
    ghost use Rattle.element_set.specs.Faults.{gen_fault};

    ghost from_gives = { λ f e. e ≡ gen_fault f };

    fn from(fault: GenFault) -> BuildFault {
        match fault {
            GenFault::CodeTooLong(at) => refusal(60, at),
            GenFault::NoMemory => BuildFault::NoMemory,
        }
    }
}

impl From<NoMemory> for BuildFault {
    ghost use Rattle.std.specs.Prelude.{◌≡◌};
    ghost use Rattle.element_set.specs.declared.fault.BuildFault.TheVariants.{NoMemory as no_memory};

    ghost from_gives = { λ _ e. e ≡ no_memory };

    fn from(_refused: NoMemory) -> BuildFault {
        BuildFault::NoMemory
    }
}

impl From<AllocError> for BuildFault {
    ghost use Rattle.std.specs.Prelude.{◌≡◌};
    ghost use Rattle.element_set.specs.declared.fault.BuildFault.TheVariants.{NoMemory};

    ghost from_gives = { λ _ e. e ≡ NoMemory };

    fn from(_refused: AllocError) -> BuildFault {
        BuildFault::NoMemory
    }
}

impl<T: Drop> From<AllocFailed<T>> for BuildFault {
    ghost use Rattle.std.specs.Prelude.{◌≡◌};
    ghost use Rattle.element_set.specs.declared.fault.BuildFault.TheVariants.{NoMemory};

    ghost from_gives = { λ _ e. e ≡ NoMemory };

    fn from(_refused: AllocFailed<T>) -> BuildFault {
        BuildFault::NoMemory
    }
}
