//! Why a report was not written.

use feast_base::{NoMemory, SinkFailed};

/// Why a report was not written.
#[derive(Clone, Copy)]
pub enum WriteFault {
    /// The sink failed; it has a first part of the report.
    Sink,
    /// Memory ran out before anything was put.
    NoMemory,
}

impl From<NoMemory> for WriteFault {
    ghost use Rattle.std.specs.Prelude.{◌≡◌};
    ghost use Rattle.report_text.specs.declared.write_fault.WriteFault.TheVariants.{NoMemory as no_memory};

    ghost from_gives = { λ _ e. e ≡ no_memory };

    fn from(_refused: NoMemory) -> WriteFault {
        WriteFault::NoMemory
    }
}

impl From<SinkFailed> for WriteFault {
    ghost use Rattle.std.specs.Prelude.{◌≡◌};
    ghost use Rattle.report_text.specs.declared.write_fault.WriteFault.TheVariants.{Sink};

    ghost from_gives = { λ _ e. e ≡ Sink };

    fn from(_failed: SinkFailed) -> WriteFault {
        WriteFault::Sink
    }
}
