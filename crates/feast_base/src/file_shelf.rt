//! The files of the system.
ghost use Rattle.std.specs.Prelude.{◌≡◌, ℕ, ◌-◌, ◌^◌, ◌<◌, [], List};
ghost use Rattle.std.specs.Io.{ReadsAtMost};
ghost use Rattle.std.specs.Io.KnownBytes.{ReadConsumes};
ghost use Rattle.feast_base.specs.Loading.{AppendsSome, ReadsWhole};
ghost use Rattle.feast_base.specs.Outside.{hidden_shelf};

use crate::noted::note;
use crate::{LoadFault, Name, Shelf};
use std::alloc::Global;
use std::io::{ErrorKind, Read};
use std::marker::Model;
use std::rt::Files;
use std::{fs, io};

/// The files of the system. Their contents are unknown to contracts; a shelf is seen as the names
/// whose load failed.
#[derive(Drop)]
pub struct FileShelf<'a, R: Files> {
    rt: &'a R,
    alloc: Global,
    failed: Vec<Name>,
}

impl<'a, R: Files> Model for FileShelf<'a, R> {
    ghost use Rattle.std.specs.Prelude.{List, ℕ};

    ghost Value = { List (List ℕ) };

    ghost view = { λ s. s.failed.items };
}

impl<'a, R: Files> FileShelf<'a, R> {
    /// The files that `rt` opens.
    pub fn new(rt: &'a R, alloc: Global) -> FileShelf<'a, R>
        ensures { result ≡ [] }
    {
        FileShelf {
            rt,
            alloc,
            failed: Vec::new(alloc),
        }
    }
}

/// One read, tried again for as long as a signal interrupts it.
fn read_some<S: Read>(file: &mut S, buffer: &mut [u8]) -> io::Result<usize>
    ensures bound { ReadsAtMost result buffer.new }
    ensures bytes { ReadConsumes (S.remaining file.old) (S.remaining file.new) result buffer.new }
{
    for _ in 0..u64::MAX {
        match file.read(buffer) {
            Ok(count) => return Ok(count),
            Err(fault) => {
                if fault.kind() != ErrorKind::Interrupted {
                    return Err(fault);
                }
            }
        }
    }
    Err(ErrorKind::Interrupted.into())
}

/// Appends what is left of a file, but at most `limit + 1` bytes. A read that a signal interrupts is
/// tried again.
///
/// `Failed` if another fault comes. `TooLong` if there are more than `limit` bytes. `NoMemory` if
/// `into` can't grow.
pub fn read_whole<S: Read>(file: &mut S, limit: usize, into: &mut Vec<u8>) -> Result<(), LoadFault>
    requires { limit < 2 ^ 64 - 1 }
    ensures { AppendsSome into.old.items into.new.items (ReadsWhole (S.remaining file.old) (S.remaining file.new) limit result) }
{
    let mut buffer = [0u8; 4096];
    let mut left = limit + 1;
    while left > 0 {
        let want = left.min(buffer.len());
        let count = match read_some(file, &mut buffer[..want]) {
            Ok(count) => count,
            Err(_) => return Err(LoadFault::Failed),
        };
        if count == 0 {
            return Ok(());
        }
        into.extend_from_slice(&buffer[..count])?;
        left -= count;
    }
    Err(LoadFault::TooLong)
}

impl<R: Files> Shelf for FileShelf<'_, R> {
    ghost state = { hidden_shelf };

    /// Appends the whole file at that path to `into`, if it has at most `limit` bytes.
    ///
    /// `Failed` if it can't be opened or a read fails.
    fn load(&mut self, name: &str, limit: usize, into: &mut Vec<u8>) -> Result<(), LoadFault> {
        let mut file = match fs::open(self.rt, name) {
            Ok(file) => file,
            Err(_) => return Err(note(self.alloc, &mut self.failed, name)),
        };
        match read_whole(&mut file, limit, into) {
            Ok(()) => Ok(()),
            Err(LoadFault::Failed) => Err(note(self.alloc, &mut self.failed, name)),
            Err(other) => Err(other),
        }
    }
}
