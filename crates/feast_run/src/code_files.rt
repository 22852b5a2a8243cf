//! Loading and reading a code file.
ghost use Rattle.std.specs.Prelude.{◌≡◌};
ghost use Rattle.code_file.specs.declared.fault.CodeFault.{CodeFault};
ghost use Rattle.element_set.specs.Sets.{Coded};
ghost use Rattle.feast_run.specs.CodeFiles.{code_refused, codes_from, codes_in};
ghost use Rattle.feast_run.specs.Faults.{IsCodeHalt, IsHalt};
ghost use Rattle.feast_run.specs.Tellings.{Moves, Tells};

use crate::halt::{Halt, Input, Refused};
use crate::loading::{CODE_LIMIT, at_byte, load_file};
use code_file::{CodeFault, CodeSet, read};
use feast_base::Shelf;
use std::alloc::Global;

/// The refusal of a code file whose file has this word.
fn code_refusal<'a>(word: &'a str, code: u8, column: u64) -> Halt<'a>
    requires { Coded code }
    ensures { IsHalt (code_refused word.now code column) result }
{
    Halt::Refused(Refused {
        input: Input::Codes,
        word,
        refusal: at_byte(code, column),
    })
}

/// The halt at a fault of a code file.
fn code_halt<'a>(word: &'a str, fault: CodeFault) -> Halt<'a>
    ensures { IsCodeHalt word.now fault result }
{
    match fault {
        CodeFault::BadMagic => code_refusal(word, 61, 1),
        CodeFault::BadForm(column) => code_refusal(word, 62, column),
        CodeFault::NotValid(column) => code_refusal(word, 63, column),
        CodeFault::SameName(column) => code_refusal(word, 64, column),
        CodeFault::NoMemory => Halt::NoMemory,
    }
}

/// Reads the elements in the bytes of a code file, which has this word.
fn read_codes<'a>(alloc: Global, word: &'a str, bytes: &[u8]) -> Result<CodeSet, Halt<'a>>
    ensures { Tells (λ es. es) (codes_in word.now bytes.now) result }
{
    match read(alloc, bytes) {
        Ok(set) => Ok(set),
        Err(fault) => Err(code_halt(word, fault)),
    }
}

/// Loads and reads a code file.
pub fn load_codes<'a, F: Shelf>(
    alloc: Global,
    shelf: &mut F,
    word: &'a str,
) -> Result<CodeSet, Halt<'a>>
    ensures files { (F.state shelf.new).files ≡ (F.state shelf.old).files }
    ensures moves { Moves (F.state shelf.old) (F.state shelf.new) result }
    ensures tells { Tells (λ es. es) (codes_from (F.state shelf.old).files word.now) result }
{
    let bytes = load_file(alloc, shelf, word, CODE_LIMIT)?;
    read_codes(alloc, word, bytes.as_slice())
}
