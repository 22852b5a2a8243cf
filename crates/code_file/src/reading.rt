//! Reading code files.
ghost use Rattle.std.specs.Prelude.{◌≡◌, ◌↔◌, [], IsTrue, IfOk, length, take, Result};
ghost use Rattle.code_file.specs.Form.{CodesValue, element, elements, magic};
ghost use Rattle.code_file.specs.Judging.{Admits, Answers, IsWithin, Reads, Tells, column_behind, fault_of, is_among, right_elements, element_list};
ghost use Rattle.code_file.specs.declared.fault.CodeFault.{CodeFault};

use crate::elements::{Draft, body};
use crate::fault::CodeFault;
use crate::halt::Halt;
use crate::magic::MAGIC;
use crate::set::CodeSet;
use crate::writing::push_elements;
use feast_base::{Name, NoMemory};
use stack_code::{Code, RawCode, verify};
use std::alloc::Global;

/// Whether bytes begin as a code file does.
fn has_magic(bytes: &[u8]) -> bool
    ensures { IsTrue result ↔ (take 8 bytes.now ≡ magic) }
{
    bytes.len() >= 8 && &bytes[..8] == MAGIC.as_slice()
}

/// Whether a name is among others.
#[tactic(auto, unfolding(crate::specs::Judging::is_among))]
fn is_among(name: &Name, names: &[Name]) -> bool
    ensures { result ≡ is_among name.now names.now }
{
    names.iter().any(|other| other.bytes() == name.bytes())
}

/// The position of the first byte of the element after these, counted from 1.
fn column_behind(alloc: Global, names: &[Name], codes: &[Code]) -> Result<u64, NoMemory>
    requires { length names.now ≡ length codes.now }
    ensures { IfOk result (λ column. column ≡ column_behind (elements names.now codes.now)) }
{
    let mut before = Vec::new(alloc);
    push_elements(&mut before, names, codes)?;
    Ok(before.len() as u64 + 11)
}

/// Adds an element to others, if its name is new and its code is valid.
fn admit(
    alloc: Global,
    names: &mut Vec<Name>,
    codes: &mut Vec<Code>,
    name: Name,
    code: RawCode,
) -> Result<(), CodeFault>
    requires { length names.old.items ≡ length codes.old.items }
    ensures admits { Admits (element_list names.old codes.old) (element name code) (element_list names.new codes.new) result }
    ensures same { IfOk result (λ _. length names.new.items ≡ length codes.new.items) }
{
    if is_among(&name, names.as_slice()) {
        let column = column_behind(alloc, names.as_slice(), codes.as_slice())?;
        return Err(CodeFault::SameName(column));
    }
    match verify(alloc, code)? {
        Some(code) => {
            names.push(name)?;
            codes.push(code)?;
            Ok(())
        }
        None => {
            let column = column_behind(alloc, names.as_slice(), codes.as_slice())?;
            Err(CodeFault::NotValid(column))
        }
    }
}

/// The set of elements, or the fault of the first one that has the name of an earlier one or whose
/// code is not valid.
fn judge(alloc: Global, drafts: Vec<Draft>) -> Result<CodeSet, CodeFault>
    ensures { Answers (right_elements [] drafts.items) result }
{
    let mut names = Vec::new(alloc);
    let mut codes = Vec::new(alloc);
    for draft in drafts {
        let Draft { name, code } = draft;
        admit(alloc, &mut names, &mut codes, name, code)?;
    }
    Ok(CodeSet::new(names, codes))
}

/// The fault for reading that stopped in these bytes.
fn fault_of(bytes: &[u8], halt: Halt) -> CodeFault
    requires { IsWithin halt (length bytes.now) }
    ensures { result ≡ fault_of (length bytes.now) halt }
{
    match halt {
        Halt::NoMemory => CodeFault::NoMemory,
        Halt::Bad(left) => CodeFault::BadForm((bytes.len() - left) as u64 + 1),
    }
}

/// The elements of a code file.
///
/// # Errors
/// `BadMagic` if the first 8 bytes are not those of a code file. `BadForm` if the bytes spell no code
/// file. Then, element by element, `SameName` if it has the name of an earlier one, and `NotValid`
/// if its code is not valid. `NoMemory` if memory runs out; memory is allocated for what was read,
/// whatever number of elements, functions or instructions the file announces.
pub fn read(alloc: Global, bytes: &[u8]) -> Result<CodeSet, CodeFault>
    // The answer is an outcome of the reading, unless memory is wanted.
    ensures tells { Tells bytes.now result }
    // Whatever outcome the reading has is the answer.
    ensures exactly { (r : Result CodesValue CodeFault) → Reads bytes.now r → Answers r result }
{
    if !has_magic(bytes) {
        return Err(CodeFault::BadMagic);
    }
    match body(alloc, &bytes[8..]) {
        Ok(drafts) => judge(alloc, drafts),
        Err(halt) => Err(fault_of(bytes, halt)),
    }
}
