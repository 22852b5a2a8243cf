//! Writing code files.
ghost use Rattle.std.specs.Prelude.{◌≡◌, ◌++◌, length};
ghost use Rattle.std.specs.List.{flat_map};
ghost use Rattle.feast_base.specs.Appending.{Appends};
ghost use Rattle.code_file.specs.Form.{answer_code, element, element_bytes, elements, file_bytes, function_bytes, operand_code, slot_bytes};
ghost use Rattle.code_file.specs.Numbers.{be, with_length, name_bytes};

use crate::magic::MAGIC;
use crate::written_instrs::{push_byte, push_instrs};
use crate::written_numbers::{push_name, push_number};
use feast_base::text::push;
use feast_base::{Name, NoMemory};
use stack_code::{Answer, Code, Operand, RawFunction};

/// The byte for the kind of a slot.
fn operand_code(operand: Operand) -> u8
    ensures { result ≡ operand_code operand }
{
    match operand {
        Operand::Number => 0,
        Operand::Atom => 1,
    }
}

/// The byte for the result of a function.
fn answer_code(answer: Answer) -> u8
    ensures { result ≡ answer_code answer }
{
    match answer {
        Answer::Nothing => 0,
        Answer::Number => 1,
        Answer::Atom => 2,
    }
}

/// Appends slots.
fn push_each_slot(out: &mut Vec<u8>, slots: &[Operand]) -> Result<(), NoMemory>
    ensures { Appends out.old.items out.new.items result (flat_map slot_bytes slots.now) }
{
    for slot in slots {
        push_byte(out, operand_code(*slot))?;
    }
    Ok(())
}

/// Appends slots after their count.
fn push_slots(out: &mut Vec<u8>, slots: &[Operand]) -> Result<(), NoMemory>
    ensures { Appends out.old.items out.new.items result (with_length 1 slot_bytes slots.now) }
{
    push_number(out, slots.len() as u128, 1)?;
    push_each_slot(out, slots)
}

/// Appends a function's name, its base and its first place.
fn push_head(out: &mut Vec<u8>, function: &RawFunction) -> Result<(), NoMemory>
    ensures { Appends out.old.items out.new.items result (name_bytes function.now.name ++ (be 1 function.now.base ++ be 4 function.now.first)) }
{
    push_name(out, function.name())?;
    push_number(out, u128::from(function.base()), 1)?;
    push_number(out, u128::from(function.first()), 4)
}

/// Appends a function.
fn push_function(out: &mut Vec<u8>, function: &RawFunction) -> Result<(), NoMemory>
    ensures { Appends out.old.items out.new.items result (function_bytes function.now) }
{
    push_head(out, function)?;
    push_number(out, u128::from(function.params()), 1)?;
    push_byte(out, answer_code(function.answer()))?;
    push_slots(out, function.slots())
}

/// Appends functions.
fn push_each_function(out: &mut Vec<u8>, functions: &[RawFunction]) -> Result<(), NoMemory>
    ensures { Appends out.old.items out.new.items result (flat_map function_bytes functions.now) }
{
    for function in functions {
        push_function(out, function)?;
    }
    Ok(())
}

/// Appends functions after their count.
fn push_functions(out: &mut Vec<u8>, functions: &[RawFunction]) -> Result<(), NoMemory>
    ensures { Appends out.old.items out.new.items result (with_length 4 function_bytes functions.now) }
{
    push_number(out, functions.len() as u128, 4)?;
    push_each_function(out, functions)
}

/// Appends an element.
fn push_element(out: &mut Vec<u8>, name: &Name, code: &Code) -> Result<(), NoMemory>
    ensures { Appends out.old.items out.new.items result (element_bytes (element name.now code.now)) }
{
    push_name(out, name)?;
    push_functions(out, code.functions())?;
    push_instrs(out, code.instrs())
}

/// Appends elements.
pub fn push_elements(out: &mut Vec<u8>, names: &[Name], codes: &[Code]) -> Result<(), NoMemory>
    requires { length names.now ≡ length codes.now }
    ensures { Appends out.old.items out.new.items result (flat_map element_bytes (elements names.now codes.now)) }
{
    for k in 0..names.len() {
        push_element(out, &names[k], &codes[k])?;
    }
    Ok(())
}

/// Appends the code file of elements with these names and codes. The first has type number 1.
/// `NoMemory` if `out` can't grow; what it held before stays at its front.
///
/// `read` reads the file back if the names differ, each number is in range and no code makes an atom
/// of a type that has no name here.
pub fn write(names: &[Name], codes: &[Code], out: &mut Vec<u8>) -> Result<(), NoMemory>
    requires { length names.now ≡ length codes.now }
    ensures { Appends out.old.items out.new.items result (file_bytes (elements names.now codes.now)) }
{
    push(out, &MAGIC)?;
    push_number(out, names.len() as u128, 2)?;
    push_elements(out, names, codes)
}
