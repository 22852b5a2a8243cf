//! Shelves, from which files are loaded.
ghost use Rattle.std.specs.Prelude.{◌≡◌, ℕ, ◌^◌, ◌-◌, ◌<◌, List, IsErrOf};
ghost use Rattle.feast_base.specs.Outside.{ShelfState};
ghost use Rattle.feast_base.specs.Loading.{AppendsSome, IsLoad, NotesFailed};
ghost use Rattle.feast_base.specs.declared.shelf.LoadFault.TheVariants.{NoMemory};

use std::alloc::AllocError;
use thiserror::Error;

/// Why a load gave no file.
#[derive(Clone, Copy, Debug, PartialEq, Eq, Error)]
pub enum LoadFault {
    /// There is no such file, or it can't be read.
    #[error("unreadable")]
    Failed,
    /// The file is longer than the limit.
    #[error("too long")]
    TooLong,
    /// Running out of memory.
    #[error("out of memory")]
    NoMemory,
}

impl From<AllocError> for LoadFault {
    ghost from_gives = { λ _ fault. fault ≡ NoMemory };

    fn from(_refused: AllocError) -> LoadFault {
        LoadFault::NoMemory
    }
}

/// A place that files are loaded from.
///
/// Contracts see three things, as its `state`. `files` are the files that it holds, if it reveals
/// them; no call changes them. `failed` are the names whose load failed, in the order of the loads.
/// `may_fail` says of a name whether loading it may fail from now on.
pub trait Shelf {
    ghost state: { Self → ShelfState };

    /// Appends the whole file of that name to `into`, if it has at most `limit` bytes.
    ///
    /// `Failed` if there is no such file or it can't be read; the name is then appended to the
    /// names that failed. `TooLong` if the file has more bytes than `limit`, of which `limit + 1`
    /// were appended; with any other fault at most `limit` bytes were appended. After a fault the
    /// earlier bytes of `into` are still there, in front of what was appended.
    fn load(&mut self, name: &str, limit: usize, into: &mut Vec<u8>) -> Result<(), LoadFault>
        requires { limit < 2 ^ 64 - 1 }
        ensures files { (state self.new).files ≡ (state self.old).files }
        ensures appends { AppendsSome into.old.items into.new.items (IsLoad (state self.old).files name.now limit result) }
        ensures noted { NotesFailed (state self.old).failed (state self.new).failed name.now result }
        ensures cause { IsErrOf result LoadFault.Failed → (state self.old).may_fail name.now }
        ensures later { (n : List ℕ) → (state self.new).may_fail n → (state self.old).may_fail n };
}
