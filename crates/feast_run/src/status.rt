//! How a call of the program ends.
ghost use Rattle.std.specs.Prelude.{◌≡◌};
ghost use Rattle.feast_run.specs.Codes.{code_of};

/// How a call of the program ended.
#[derive(Clone, Copy, PartialEq, Eq)]
pub enum Status {
    /// The defined text was written whole.
    Done,
    /// The words have no form.
    Usage,
    /// A file can't be read, or is longer than its limit.
    Unreadable,
    /// An element file is refused.
    ElementRefused,
    /// The world is refused.
    WorldRefused,
    /// The journal is refused.
    JournalRefused,
    /// The sink failed.
    SinkFault,
    /// Memory ran out.
    NoMemory,
    /// A code file is refused.
    CodeRefused,
}

impl Status {
    /// The exit status of the program: 0 for `Done`, and 2 to 9 for the others in their order.
    pub fn code(self) -> u8
        ensures { result ≡ code_of self }
    {
        match self {
            Status::Done => 0,
            Status::Usage => 2,
            Status::Unreadable => 3,
            Status::ElementRefused => 4,
            Status::WorldRefused => 5,
            Status::JournalRefused => 6,
            Status::SinkFault => 7,
            Status::NoMemory => 8,
            Status::CodeRefused => 9,
        }
    }
}
