//! Writing instructions.
ghost use Rattle.std.specs.Prelude.{◌≡◌, ◌++◌};
ghost use Rattle.std.specs.List.{flat_map};
ghost use Rattle.feast_base.specs.Appending.{Appends};
ghost use Rattle.code_file.specs.Instrs.{args_bytes, array_bytes, field_bytes, instr_bytes, kind_code, opcode};
ghost use Rattle.code_file.specs.Numbers.{be, with_length};

use crate::written_numbers::{push_number, push_signed};
use feast_base::NoMemory;
use sat_math::Kind;
use stack_code::Instr;

/// The opcode of an instruction.
fn opcode(instr: Instr) -> u8
    ensures { result ≡ opcode instr }
{
    match instr {
        Instr::PushNum(_) => 0,
        Instr::PushAtom(_) => 1,
        Instr::LoadLocal(_) => 2,
        Instr::StoreLocal(_) => 3,
        Instr::Pop => 4,
        Instr::LoadField(_, _, _) => 5,
        Instr::StoreField(_, _, _) => 6,
        Instr::LoadPart(_, _, _, _) => 7,
        Instr::StorePart(_, _, _, _) => 8,
        Instr::LoadSelf => 9,
        Instr::LoadSite => 10,
        Instr::StoreSite => 11,
        Instr::Swap => 12,
        Instr::IsLive => 13,
        Instr::IsEmpty => 14,
        Instr::RandCreate => 15,
        Instr::RandOneIn => 16,
        Instr::IsKind(_) => 17,
        Instr::AddI => 18,
        Instr::SubI => 19,
        Instr::MulI => 20,
        Instr::DivI => 21,
        Instr::RemI => 22,
        Instr::AddU => 23,
        Instr::SubU => 24,
        Instr::MulU => 25,
        Instr::DivU => 26,
        Instr::RemU => 27,
        Instr::NegI => 28,
        Instr::And => 29,
        Instr::Or => 30,
        Instr::Xor => 31,
        Instr::NotW(_) => 32,
        Instr::Shl(_) => 33,
        Instr::Shr => 34,
        Instr::Fit(_, _) => 35,
        Instr::NotB => 36,
        Instr::Eq => 37,
        Instr::Ne => 38,
        Instr::Lt => 39,
        Instr::Le => 40,
        Instr::Gt => 41,
        Instr::Ge => 42,
        Instr::Jump(_) => 43,
        Instr::JumpFalse(_) => 44,
        Instr::Turn => 45,
        Instr::Call(_) => 46,
        Instr::Return => 47,
        Instr::ReturnVoid => 48,
        Instr::AddL => 49,
        Instr::SubL => 50,
        Instr::MulL => 51,
        Instr::DivL => 52,
        Instr::RemL => 53,
        Instr::AddV => 54,
        Instr::SubV => 55,
        Instr::MulV => 56,
        Instr::DivV => 57,
        Instr::RemV => 58,
        Instr::NegL => 59,
        Instr::Dup => 60,
        Instr::LoadFieldAt(_, _, _, _) => 61,
        Instr::StoreFieldAt(_, _, _, _) => 62,
        Instr::LoadPartAt(_, _, _, _, _) => 63,
        Instr::StorePartAt(_, _, _, _, _) => 64,
    }
}

/// The byte for a kind of number.
fn kind_code(kind: Kind) -> u8
    ensures { result ≡ kind_code kind }
{
    match kind {
        Kind::Int => 0,
        Kind::Unsigned => 1,
        Kind::Bits => 2,
        Kind::Bool => 3,
        Kind::Unary => 4,
    }
}

/// Appends a number of one byte.
pub fn push_byte(out: &mut Vec<u8>, byte: u8) -> Result<(), NoMemory>
    ensures { Appends out.old.items out.new.items result (be 1 byte) }
{
    push_number(out, u128::from(byte), 1)
}

/// Appends a place or the number of a function.
fn push_place(out: &mut Vec<u8>, place: u32) -> Result<(), NoMemory>
    ensures { Appends out.old.items out.new.items result (be 4 place) }
{
    push_number(out, u128::from(place), 4)
}

/// Appends a type number.
fn push_type(out: &mut Vec<u8>, kind: u16) -> Result<(), NoMemory>
    ensures { Appends out.old.items out.new.items result (be 2 kind) }
{
    push_number(out, u128::from(kind), 2)
}

/// Appends a field: its first bit, its width and its kind.
fn push_field(out: &mut Vec<u8>, first: u8, width: u8, kind: Kind) -> Result<(), NoMemory>
    ensures { Appends out.old.items out.new.items result (field_bytes first width kind) }
{
    push_byte(out, first)?;
    push_byte(out, width)?;
    push_byte(out, kind_code(kind))
}

/// Appends a slot and a field.
fn push_part(out: &mut Vec<u8>, slot: u8, first: u8, width: u8, kind: Kind) -> Result<(), NoMemory>
    ensures { Appends out.old.items out.new.items result (be 1 slot ++ field_bytes first width kind) }
{
    push_byte(out, slot)?;
    push_field(out, first, width, kind)
}

/// Appends a field and the length of its array.
fn push_array(
    out: &mut Vec<u8>,
    first: u8,
    width: u8,
    kind: Kind,
    length: u8,
) -> Result<(), NoMemory>
    ensures { Appends out.old.items out.new.items result (array_bytes first width kind length) }
{
    push_field(out, first, width, kind)?;
    push_byte(out, length)
}

/// Appends a kind and a width.
fn push_fit(out: &mut Vec<u8>, kind: Kind, width: u8) -> Result<(), NoMemory>
    ensures { Appends out.old.items out.new.items result (be 1 (kind_code kind) ++ be 1 width) }
{
    push_byte(out, kind_code(kind))?;
    push_byte(out, width)
}

/// Appends the arguments of an instruction.
fn push_args(out: &mut Vec<u8>, instr: Instr) -> Result<(), NoMemory>
    ensures { Appends out.old.items out.new.items result (args_bytes instr) }
{
    match instr {
        Instr::PushNum(v) => push_signed(out, v),
        Instr::PushAtom(k) | Instr::IsKind(k) => push_type(out, k),
        Instr::LoadLocal(s) | Instr::StoreLocal(s) => push_byte(out, s),
        Instr::NotW(w) | Instr::Shl(w) => push_byte(out, w),
        Instr::Jump(p) | Instr::JumpFalse(p) | Instr::Call(p) => push_place(out, p),
        Instr::Fit(kind, w) => push_fit(out, kind, w),
        Instr::LoadField(f, w, kind) | Instr::StoreField(f, w, kind) => {
            push_field(out, f, w, kind)
        }
        Instr::LoadPart(s, f, w, kind) | Instr::StorePart(s, f, w, kind) => {
            push_part(out, s, f, w, kind)
        }
        Instr::LoadFieldAt(f, w, kind, n) | Instr::StoreFieldAt(f, w, kind, n) => {
            push_array(out, f, w, kind, n)
        }
        Instr::LoadPartAt(s, f, w, kind, n) | Instr::StorePartAt(s, f, w, kind, n) => {
            push_byte(out, s)?;
            push_array(out, f, w, kind, n)
        }
        _ => Ok(()),
    }
}

/// Appends an instruction.
fn push_instr(out: &mut Vec<u8>, instr: Instr) -> Result<(), NoMemory>
    ensures { Appends out.old.items out.new.items result (instr_bytes instr) }
{
    push_byte(out, opcode(instr))?;
    push_args(out, instr)
}

/// Appends instructions.
fn push_each(out: &mut Vec<u8>, instrs: &[Instr]) -> Result<(), NoMemory>
    ensures { Appends out.old.items out.new.items result (flat_map instr_bytes instrs.now) }
{
    for instr in instrs {
        push_instr(out, *instr)?;
    }
    Ok(())
}

/// Appends instructions after their count.
pub fn push_instrs(out: &mut Vec<u8>, instrs: &[Instr]) -> Result<(), NoMemory>
    ensures { Appends out.old.items out.new.items result (with_length 4 instr_bytes instrs.now) }
{
    push_number(out, instrs.len() as u128, 4)?;
    push_each(out, instrs)
}
