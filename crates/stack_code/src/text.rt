//! The text form of code.

ghost use Rattle.std.specs.Prelude.{◌≡◌, ◌+◌, ◌-◌, ◌++◌, drop, take};
ghost use Rattle.std.specs.Fmt.{signed_decimal};
ghost use Rattle.feast_base.specs.Appending.{Appends};
ghost use Rattle.stack_code.specs.Text.{space_and_word, number_text, kind_name, field_text, instr_name, args_text, instr_line, instr_lines, function_line, function_text, function_texts, element_line, code_text};

use crate::code::{Code, RawCode, RawFunction};
use crate::instr::Instr;
use crate::pass::end_of;
use feast_base::text::{push, push_number};
use feast_base::{Name, NoMemory};
use itoa::Buffer;
use sat_math::Kind;

/// The name of an instruction.
fn instr_name(instr: Instr) -> &'static [u8]
    ensures { result.now ≡ instr_name instr }
{
    match instr {
        Instr::PushNum(_) => b"PushNum",
        Instr::PushAtom(_) => b"PushAtom",
        Instr::LoadLocal(_) => b"LoadLocal",
        Instr::StoreLocal(_) => b"StoreLocal",
        Instr::Pop => b"Pop",
        Instr::LoadField(_, _, _) => b"LoadField",
        Instr::StoreField(_, _, _) => b"StoreField",
        Instr::LoadPart(_, _, _, _) => b"LoadPart",
        Instr::StorePart(_, _, _, _) => b"StorePart",
        Instr::LoadSelf => b"LoadSelf",
        Instr::LoadSite => b"LoadSite",
        Instr::StoreSite => b"StoreSite",
        Instr::Swap => b"Swap",
        Instr::IsLive => b"IsLive",
        Instr::IsEmpty => b"IsEmpty",
        Instr::RandCreate => b"RandCreate",
        Instr::RandOneIn => b"RandOneIn",
        Instr::IsKind(_) => b"IsKind",
        Instr::AddI => b"AddI",
        Instr::SubI => b"SubI",
        Instr::MulI => b"MulI",
        Instr::DivI => b"DivI",
        Instr::RemI => b"RemI",
        Instr::AddU => b"AddU",
        Instr::SubU => b"SubU",
        Instr::MulU => b"MulU",
        Instr::DivU => b"DivU",
        Instr::RemU => b"RemU",
        Instr::NegI => b"NegI",
        Instr::And => b"And",
        Instr::Or => b"Or",
        Instr::Xor => b"Xor",
        Instr::NotW(_) => b"NotW",
        Instr::Shl(_) => b"Shl",
        Instr::Shr => b"Shr",
        Instr::Fit(_, _) => b"Fit",
        Instr::NotB => b"NotB",
        Instr::Eq => b"Eq",
        Instr::Ne => b"Ne",
        Instr::Lt => b"Lt",
        Instr::Le => b"Le",
        Instr::Gt => b"Gt",
        Instr::Ge => b"Ge",
        Instr::Jump(_) => b"Jump",
        Instr::JumpFalse(_) => b"JumpFalse",
        Instr::Turn => b"Turn",
        Instr::Call(_) => b"Call",
        Instr::Return => b"Return",
        Instr::ReturnVoid => b"ReturnVoid",
        Instr::AddL => b"AddL",
        Instr::SubL => b"SubL",
        Instr::MulL => b"MulL",
        Instr::DivL => b"DivL",
        Instr::RemL => b"RemL",
        Instr::AddV => b"AddV",
        Instr::SubV => b"SubV",
        Instr::MulV => b"MulV",
        Instr::DivV => b"DivV",
        Instr::RemV => b"RemV",
        Instr::NegL => b"NegL",
        Instr::Dup => b"Dup",
        Instr::LoadFieldAt(_, _, _, _) => b"LoadFieldAt",
        Instr::StoreFieldAt(_, _, _, _) => b"StoreFieldAt",
        Instr::LoadPartAt(_, _, _, _, _) => b"LoadPartAt",
        Instr::StorePartAt(_, _, _, _, _) => b"StorePartAt",
    }
}

/// The name of a kind of numbers.
fn kind_name(kind: Kind) -> &'static [u8]
    ensures { result.now ≡ kind_name kind }
{
    match kind {
        Kind::Int => b"Int",
        Kind::Unsigned => b"Unsigned",
        Kind::Bits => b"Bits",
        Kind::Bool => b"Bool",
        Kind::Unary => b"Unary",
    }
}

/// Appends a space and a word.
fn push_word(out: &mut Vec<u8>, word: &[u8]) -> Result<(), NoMemory>
    ensures { Appends out.old.items out.new.items result (space_and_word word.now) }
{
    push(out, b" ")?;
    push(out, word)
}

/// Appends a space and a number.
fn push_count(out: &mut Vec<u8>, n: u64) -> Result<(), NoMemory>
    ensures { Appends out.old.items out.new.items result (number_text n) }
{
    push(out, b" ")?;
    push_number(out, n)
}

/// Appends a space and a signed number.
fn push_signed(out: &mut Vec<u8>, n: i128) -> Result<(), NoMemory>
    ensures { Appends out.old.items out.new.items result (space_and_word (signed_decimal n)) }
{
    let mut buffer = Buffer::new();
    push_word(out, buffer.format(n).as_bytes())
}

/// Appends a field: its first bit, its width and its kind.
fn push_field(out: &mut Vec<u8>, first: u8, width: u8, kind: Kind) -> Result<(), NoMemory>
    ensures { Appends out.old.items out.new.items result (field_text first width kind) }
{
    push_count(out, u64::from(first))?;
    push_count(out, u64::from(width))?;
    push_word(out, kind_name(kind))
}

/// Appends a slot and a field.
fn push_part(out: &mut Vec<u8>, slot: u8, first: u8, width: u8, kind: Kind) -> Result<(), NoMemory>
    ensures { Appends out.old.items out.new.items result (number_text slot ++ field_text first width kind) }
{
    push_count(out, u64::from(slot))?;
    push_field(out, first, width, kind)
}

/// Appends a field and the length of its array.
fn push_array(
    out: &mut Vec<u8>,
    first: u8,
    width: u8,
    kind: Kind,
    length: u8,
) -> Result<(), NoMemory>
    ensures { Appends out.old.items out.new.items result (field_text first width kind ++ number_text length) }
{
    push_field(out, first, width, kind)?;
    push_count(out, u64::from(length))
}

/// Appends the arguments of an instruction.
fn push_args(out: &mut Vec<u8>, instr: Instr) -> Result<(), NoMemory>
    ensures { Appends out.old.items out.new.items result (args_text instr) }
{
    match instr {
        Instr::PushNum(v) => push_signed(out, v),
        Instr::PushAtom(k) | Instr::IsKind(k) => push_count(out, u64::from(k)),
        Instr::LoadLocal(s) | Instr::StoreLocal(s) => push_count(out, u64::from(s)),
        Instr::NotW(w) | Instr::Shl(w) => push_count(out, u64::from(w)),
        Instr::Jump(p) | Instr::JumpFalse(p) | Instr::Call(p) => push_count(out, u64::from(p)),
        Instr::Fit(kind, w) => {
            push_word(out, kind_name(kind))?;
            push_count(out, u64::from(w))
        }
        Instr::LoadField(f, w, kind) | Instr::StoreField(f, w, kind) => {
            push_field(out, f, w, kind)
        }
        Instr::LoadPart(s, f, w, kind) | Instr::StorePart(s, f, w, kind) => {
            push_part(out, s, f, w, kind)
        }
        Instr::LoadFieldAt(f, w, kind, n) | Instr::StoreFieldAt(f, w, kind, n) => {
            push_array(out, f, w, kind, n)
        }
        Instr::LoadPartAt(s, f, w, kind, n) | Instr::StorePartAt(s, f, w, kind, n) => {
            push_count(out, u64::from(s))?;
            push_array(out, f, w, kind, n)
        }
        _ => Ok(()),
    }
}

/// Appends the line of the instruction with this index.
fn push_instr(out: &mut Vec<u8>, place: u64, instr: &Instr) -> Result<(), NoMemory>
    ensures { Appends out.old.items out.new.items result (instr_line place instr.now) }
{
    push_number(out, place)?;
    push_word(out, instr_name(*instr))?;
    push_args(out, *instr)?;
    push(out, b"\n")
}

/// Appends the lines of instructions; the first has this index.
fn push_instrs(out: &mut Vec<u8>, first: u32, instrs: &[Instr]) -> Result<(), NoMemory>
    ensures { Appends out.old.items out.new.items result (instr_lines first instrs.now) }
{
    for (i, instr) in instrs.iter().enumerate() {
        push_instr(out, u64::from(first) + i as u64, instr)?;
    }
    Ok(())
}

/// Appends the line of a function.
fn push_head(out: &mut Vec<u8>, number: u64, function: &RawFunction) -> Result<(), NoMemory>
    ensures { Appends out.old.items out.new.items result (function_line number function.now) }
{
    push(out, b"function")?;
    push_count(out, number)?;
    push_word(out, function.name().bytes())?;
    push_count(out, u64::from(function.base()))?;
    push_count(out, function.slots().len() as u64)?;
    push(out, b"\n")
}

/// The instructions from one index up to another, as far as they exist.
#[tactic(auto, using(std::proofs::lemmas::List::drop_min, std::proofs::lemmas::List::take_min))]
fn between(instrs: &[Instr], first: usize, end: usize) -> &[Instr]
    ensures { result.now ≡ take (end - first) (drop first instrs.now) }
{
    let rest = &instrs[first.min(instrs.len())..];
    &rest[..end.saturating_sub(first).min(rest.len())]
}

/// Appends the text of a function that ends before a place.
fn push_function(
    out: &mut Vec<u8>,
    code: &RawCode,
    number: u64,
    function: &RawFunction,
    end: usize,
) -> Result<(), NoMemory>
    ensures { Appends out.old.items out.new.items result (function_text code.now number function.now end) }
{
    push_head(out, number, function)?;
    let first = function.first();
    push_instrs(out, first, between(code.instrs(), first as usize, end))
}

/// Appends the texts of all functions.
fn push_functions(out: &mut Vec<u8>, code: &RawCode) -> Result<(), NoMemory>
    ensures { Appends out.old.items out.new.items result (function_texts code.now 0 code.now.functions) }
{
    let functions = code.functions();
    for k in 0..functions.len() {
        let end = end_of(code, k + 1);
        push_function(out, code, k as u64, &functions[k], end)?;
    }
    Ok(())
}

/// Appends the line of the element.
fn push_element(out: &mut Vec<u8>, name: &Name, code: &RawCode) -> Result<(), NoMemory>
    ensures { Appends out.old.items out.new.items result (element_line name.now code.now) }
{
    push(out, b"element")?;
    push_word(out, name.bytes())?;
    push_count(out, u64::from(code.kind()))?;
    push_count(out, code.instrs().len() as u64)?;
    push(out, b"\n")
}

/// Appends the text of the code of an element with this name: a line for the element, then for each
/// function a line and its instructions with their indices. `NoMemory` if `out` can't grow.
pub fn print(code: &Code, name: &Name, out: &mut Vec<u8>) -> Result<(), NoMemory>
    ensures { Appends out.old.items out.new.items result (code_text name.now code.now) }
{
    push_element(out, name, code.raw())?;
    push_functions(out, code.raw())
}
