//! Loading a file.
ghost use Rattle.std.specs.Prelude.{◌≡◌, ◌≤◌, ◌<◌, ◌^◌, ◌-◌, ℕ, List};
ghost use Rattle.feast_run.specs.CodeFiles.{at_byte};
ghost use Rattle.feast_run.specs.Stages.{at_line, load, whole_file};
ghost use Rattle.feast_run.specs.Tellings.{Moves, Tells};

use crate::halt::{Halt, Input, Refused};
use feast_base::{LoadFault, Place, Refusal, Shelf};
use std::alloc::Global;

/// The longest world file, in bytes.
pub const WORLD_LIMIT: u32 = 268_435_456;

/// The longest journal file, in bytes.
pub const JOURNAL_LIMIT: u32 = 268_435_456;

/// The longest code file, in bytes.
pub const CODE_LIMIT: u32 = 268_435_456;

/// The longest element file, in bytes.
pub const ELEMENT_LIMIT: u32 = 1_048_576;

/// The code of words that have no form.
pub const USAGE: u8 = 0;

/// The code of a file that can't be read.
pub const UNREADABLE: u8 = 1;

/// The code of a file that is longer than its limit.
const TOO_LONG: u8 = 2;

/// A refusal of a line.
pub fn at_line(code: u8, line: u64, value: u64) -> Refusal
    ensures { result ≡ at_line code line value }
{
    let place = Place {
        file: 0,
        line: line.min(u32::MAX as u64) as u32,
        column: 1,
    };
    Refusal { code, place, value }
}

/// A refusal of a byte of a code file, counted from 1.
pub fn at_byte(code: u8, column: u64) -> Refusal
    ensures { result ≡ at_byte code column }
{
    let place = Place {
        file: 0,
        line: 1,
        column: column.min(u32::MAX as u64) as u32,
    };
    Refusal {
        code,
        place,
        value: 0,
    }
}

/// A refusal of a whole file, with its place at the file's first byte.
pub fn whole_file(code: u8, value: u64) -> Refusal
    ensures { result ≡ whole_file code value }
{
    let place = Place {
        file: 0,
        line: 1,
        column: 1,
    };
    Refusal { code, place, value }
}

/// Loads the file of a word, of at most `limit` bytes.
pub fn load_file<'a, F: Shelf>(
    alloc: Global,
    shelf: &mut F,
    word: &'a str,
    limit: u32,
) -> Result<Vec<u8>, Halt<'a>>
    ensures files { (F.state shelf.new).files ≡ (F.state shelf.old).files }
    ensures moves { Moves (F.state shelf.old) (F.state shelf.new) result }
    ensures tells { Tells (λ v. v.items) (load (F.state shelf.old).files limit word.now) result }
{
    let mut bytes = Vec::new(alloc);
    match shelf.load(word, limit as usize, &mut bytes) {
        Ok(()) => Ok(bytes),
        Err(LoadFault::Failed) => Err(Halt::Missing(word)),
        Err(LoadFault::TooLong) => Err(Halt::Refused(Refused {
            input: Input::File,
            word,
            refusal: whole_file(TOO_LONG, limit as u64),
        })),
        Err(LoadFault::NoMemory) => Err(Halt::NoMemory),
    }
}
