//! The shelf in memory.
ghost use Rattle.std.specs.Prelude.{◌≡◌, ℕ, ◌-◌, ◌^◌, ◌<◌, List, IsErrOf, IfNone, IfSome, None, Some};
ghost use Rattle.feast_base.specs.Outside.{file_of};
ghost use Rattle.feast_base.specs.Counting.{next_count};
ghost use Rattle.feast_base.specs.Held.{LoadFails, LoadMayFail, mem_shelf_state, new_shelf};
ghost use Rattle.feast_base.specs.Loading.{AppendsSome, Copies, IsFailedLoad, IsLoad, NotesFailed};

use crate::noted::note;
use crate::{LoadFault, Name, Shelf, Source};
use std::alloc::Global;
use std::marker::Model;

/// Files in memory, some of whose loads fail.
#[derive(Drop)]
pub struct MemShelf {
    alloc: Global,
    files: Vec<Source>,
    fail: Vec<u64>,
    failed: Vec<Name>,
    calls: u64,
}

impl Model for MemShelf {
    ghost use Rattle.feast_base.specs.Held.{ShelfHeld};

    ghost Value = { ShelfHeld };

    ghost view = { λ s. record { files = s.files.items; failed = s.failed.items; calls = s.calls; fail = s.fail.items } };
}

/// The bytes of the first file of that name.
fn file_of<'a>(files: &'a [Source], name: &str) -> Option<&'a [u8]>
    ensures some { IfSome result (λ bytes. file_of name.now files.now ≡ Some bytes.now) }
    ensures none { IfNone result (file_of name.now files.now ≡ None) }
{
    for file in files {
        if file.name() == name {
            return Some(file.bytes());
        }
    }
    None
}

/// Appends all the bytes if there are at most `limit`, and otherwise the first `limit + 1`.
fn append_whole(bytes: &[u8], limit: usize, into: &mut Vec<u8>) -> Result<(), LoadFault>
    requires { limit < 2 ^ 64 - 1 }
    ensures { Copies bytes.now limit into.old.items into.new.items result }
{
    let Some((front, _)) = bytes.split_at_checked(limit + 1) else {
        into.extend_from_slice(bytes)?;
        return Ok(());
    };
    into.extend_from_slice(front)?;
    Err(LoadFault::TooLong)
}

impl MemShelf {
    /// A shelf of these files. Its loads of the numbers in `fail`, counted from 1, fail.
    pub fn new(alloc: Global, files: Vec<Source>, fail: Vec<u64>) -> MemShelf
        ensures { result ≡ new_shelf files.items fail.items }
    {
        MemShelf {
            alloc,
            files,
            fail,
            failed: Vec::new(alloc),
            calls: 0,
        }
    }
}

impl Shelf for MemShelf {
    ghost state = { mem_shelf_state };

    /// Appends the first file of that name to `into`, if it has at most `limit` bytes.
    ///
    /// `Failed` comes exactly when the number of this load is listed or no file has the name; then
    /// nothing is appended to `into`. The count of loads stays at 2^64 - 1 once it gets there.
    fn load(&mut self, name: &str, limit: usize, into: &mut Vec<u8>) -> Result<(), LoadFault>
        requires { limit < 2 ^ 64 - 1 }
        ensures files { self.new.files ≡ self.old.files }
        ensures appends { AppendsSome into.old.items into.new.items (IsLoad (Some self.old.files) name.now limit result) }
        ensures noted { NotesFailed self.old.failed self.new.failed name.now result }
        ensures cause { IsErrOf result LoadFault.Failed → LoadMayFail self.old name.now }
        ensures later { (n : List ℕ) → LoadMayFail self.new n → LoadMayFail self.old n }
        ensures only_where { IsErrOf result LoadFault.Failed → LoadFails self.old name.now }
        ensures wherever { LoadFails self.old name.now → IsFailedLoad result }
        ensures nothing { IsErrOf result LoadFault.Failed → into.new.items ≡ into.old.items }
        ensures counted { self.new ≡ record self.old { calls = next_count self.old.calls; failed = self.new.failed } }
    {
        self.calls = self.calls.saturating_add(1);
        if self.fail.contains(&self.calls) {
            return Err(note(self.alloc, &mut self.failed, name));
        }
        match file_of(self.files.as_slice(), name) {
            Some(bytes) => append_whole(bytes, limit, into),
            None => Err(note(self.alloc, &mut self.failed, name)),
        }
    }
}
