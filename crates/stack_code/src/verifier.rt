//! The test of whether code is valid.

ghost use Rattle.std.specs.Prelude.{◌≡◌, length, replicate, IfOk, Some, None, if◌then◌else◌};
ghost use Rattle.stack_code.specs.Valid.{valid, first_fits, length_fits};

use crate::code::{Code, RawCode};
use crate::exits::gives_nothing;
use crate::kind_lists::KindLists;
use crate::limits::MOST_INSTRS;
use crate::pass::pass_all;
use feast_base::NoMemory;
use std::alloc::Global;

/// Whether code may have this many instructions.
fn length_fits(n: usize) -> bool
    ensures { result ≡ length_fits n }
{
    if n >= 1 {
        n <= MOST_INSTRS as usize
    } else {
        false
    }
}

/// Whether there is a first function, and it has no parameters and returns nothing.
fn first_fits(raw: &RawCode) -> bool
    ensures { result ≡ first_fits raw.now.functions }
{
    match raw.functions() {
        [] => false,
        [first, ..] => {
            if first.params() == 0 {
                gives_nothing(first.answer())
            } else {
                false
            }
        }
    }
}

/// Notes for this many places, all empty.
fn blank(alloc: Global, len: usize) -> Result<Vec<u32>, NoMemory>
    ensures { IfOk result (λ v. v.items ≡ replicate len 0) }
{
    match vec![in alloc; 0u32; len] {
        Ok(notes) => Ok(notes),
        Err(_) => Err(NoMemory),
    }
}

/// Whether code is valid.
#[tactic(auto, using(crate::proofs::Verdict::no_length, crate::proofs::Verdict::no_first, crate::proofs::Verdict::by_pass, crate::proofs::Verdict::blank_fits))]
fn is_valid(alloc: Global, raw: &RawCode) -> Result<bool, NoMemory>
    ensures { IfOk result (λ b. b ≡ valid raw.now) }
{
    if !length_fits(raw.instrs().len()) {
        return Ok(false);
    }
    if !first_fits(raw) {
        return Ok(false);
    }
    let mut lists = KindLists::new(alloc, raw.instrs().len())?;
    let mut notes = blank(alloc, raw.instrs().len())?;
    Ok(pass_all(raw, &mut lists, &mut notes))
}

/// The code if it is valid, otherwise None. `NoMemory` if there is no memory for the notes of the
/// pass: 28 bytes for each instruction.
pub fn verify(alloc: Global, raw: RawCode) -> Result<Option<Code>, NoMemory>
    ensures { IfOk result (λ o. o ≡ (if valid raw then Some raw else None)) }
{
    if is_valid(alloc, &raw)? {
        Ok(Some(Code::new(raw)))
    } else {
        Ok(None)
    }
}
