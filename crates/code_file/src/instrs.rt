//! Reading instructions. Their opcodes are those of `written_instrs::opcode`.
ghost use Rattle.std.specs.Prelude.{◌≡◌, ◌≤◌, ℕ};
ghost use Rattle.code_file.specs.Reading.{Gives, args_at, instr_at, instrs_at, times};

use crate::args::{any_byte, array, field, fit, part, part_array, place, type_number, width};
use crate::halt::Halt;
use crate::numbers::{number, signed_number};
use stack_code::{Instr, MOST_INSTRS};
use std::alloc::Global;

/// The instructions from PushNum to Pop, by opcode, and the remaining bytes.
#[tactic(auto, unfolding(crate::specs::Reading::args_at))]
fn operands(code: u64, most: u16, bytes: &[u8]) -> Result<(Instr, &[u8]), Halt>
    requires least { 0 ≤ code }
    requires greatest { code ≤ 4 }
    ensures { Gives (λ x. (x.0, x.1.now)) result (args_at most code bytes.now) }
{
    match code {
        0 => {
            let (v, rest) = signed_number(bytes)?;
            Ok((Instr::PushNum(v), rest))
        }
        1 => {
            let (k, rest) = type_number(bytes, most)?;
            Ok((Instr::PushAtom(k), rest))
        }
        2 => {
            let (s, rest) = any_byte(bytes)?;
            Ok((Instr::LoadLocal(s), rest))
        }
        3 => {
            let (s, rest) = any_byte(bytes)?;
            Ok((Instr::StoreLocal(s), rest))
        }
        _ => Ok((Instr::Pop, bytes)),
    }
}

/// The instructions from LoadField to StorePart, by opcode, and the remaining bytes.
#[tactic(auto, unfolding(crate::specs::Reading::args_at))]
fn fields(code: u64, bytes: &[u8]) -> Result<(Instr, &[u8]), Halt>
    requires least { 5 ≤ code }
    requires greatest { code ≤ 8 }
    ensures { (most : ℕ) → Gives (λ x. (x.0, x.1.now)) result (args_at most code bytes.now) }
{
    match code {
        5 => {
            let (f, rest) = field(bytes)?;
            Ok((Instr::LoadField(f.first, f.width, f.kind), rest))
        }
        6 => {
            let (f, rest) = field(bytes)?;
            Ok((Instr::StoreField(f.first, f.width, f.kind), rest))
        }
        7 => {
            let ((s, f), rest) = part(bytes)?;
            Ok((Instr::LoadPart(s, f.first, f.width, f.kind), rest))
        }
        _ => {
            let ((s, f), rest) = part(bytes)?;
            Ok((Instr::StorePart(s, f.first, f.width, f.kind), rest))
        }
    }
}

/// The instructions from LoadSelf to IsKind, by opcode, and the remaining bytes.
#[tactic(auto, unfolding(crate::specs::Reading::args_at))]
fn sites(code: u64, bytes: &[u8]) -> Result<(Instr, &[u8]), Halt>
    requires least { 9 ≤ code }
    requires greatest { code ≤ 17 }
    ensures { (most : ℕ) → Gives (λ x. (x.0, x.1.now)) result (args_at most code bytes.now) }
{
    match code {
        9 => Ok((Instr::LoadSelf, bytes)),
        10 => Ok((Instr::LoadSite, bytes)),
        11 => Ok((Instr::StoreSite, bytes)),
        12 => Ok((Instr::Swap, bytes)),
        13 => Ok((Instr::IsLive, bytes)),
        14 => Ok((Instr::IsEmpty, bytes)),
        15 => Ok((Instr::RandCreate, bytes)),
        16 => Ok((Instr::RandOneIn, bytes)),
        _ => {
            let (k, rest) = type_number(bytes, u16::MAX)?;
            Ok((Instr::IsKind(k), rest))
        }
    }
}

/// The instructions from AddI to Xor, by opcode, and the remaining bytes.
#[tactic(auto, unfolding(crate::specs::Reading::args_at))]
fn sums(code: u64, bytes: &[u8]) -> Result<(Instr, &[u8]), Halt>
    requires least { 18 ≤ code }
    requires greatest { code ≤ 31 }
    ensures { (most : ℕ) → Gives (λ x. (x.0, x.1.now)) result (args_at most code bytes.now) }
{
    match code {
        18 => Ok((Instr::AddI, bytes)),
        19 => Ok((Instr::SubI, bytes)),
        20 => Ok((Instr::MulI, bytes)),
        21 => Ok((Instr::DivI, bytes)),
        22 => Ok((Instr::RemI, bytes)),
        23 => Ok((Instr::AddU, bytes)),
        24 => Ok((Instr::SubU, bytes)),
        25 => Ok((Instr::MulU, bytes)),
        26 => Ok((Instr::DivU, bytes)),
        27 => Ok((Instr::RemU, bytes)),
        28 => Ok((Instr::NegI, bytes)),
        29 => Ok((Instr::And, bytes)),
        30 => Ok((Instr::Or, bytes)),
        _ => Ok((Instr::Xor, bytes)),
    }
}

/// The instructions from NotW to Ge, by opcode, and the remaining bytes.
#[tactic(auto, unfolding(crate::specs::Reading::args_at))]
fn tests(code: u64, bytes: &[u8]) -> Result<(Instr, &[u8]), Halt>
    requires least { 32 ≤ code }
    requires greatest { code ≤ 42 }
    ensures { (most : ℕ) → Gives (λ x. (x.0, x.1.now)) result (args_at most code bytes.now) }
{
    match code {
        32 => {
            let (w, rest) = width(bytes)?;
            Ok((Instr::NotW(w), rest))
        }
        33 => {
            let (w, rest) = width(bytes)?;
            Ok((Instr::Shl(w), rest))
        }
        34 => Ok((Instr::Shr, bytes)),
        35 => {
            let ((kind, w), rest) = fit(bytes)?;
            Ok((Instr::Fit(kind, w), rest))
        }
        36 => Ok((Instr::NotB, bytes)),
        37 => Ok((Instr::Eq, bytes)),
        38 => Ok((Instr::Ne, bytes)),
        39 => Ok((Instr::Lt, bytes)),
        40 => Ok((Instr::Le, bytes)),
        41 => Ok((Instr::Gt, bytes)),
        _ => Ok((Instr::Ge, bytes)),
    }
}

/// The instructions from Jump to ReturnVoid, by opcode, and the remaining bytes.
#[tactic(auto, unfolding(crate::specs::Reading::args_at))]
fn jumps(code: u64, bytes: &[u8]) -> Result<(Instr, &[u8]), Halt>
    requires least { 43 ≤ code }
    requires greatest { code ≤ 48 }
    ensures { (most : ℕ) → Gives (λ x. (x.0, x.1.now)) result (args_at most code bytes.now) }
{
    match code {
        43 => {
            let (p, rest) = place(bytes)?;
            Ok((Instr::Jump(p), rest))
        }
        44 => {
            let (p, rest) = place(bytes)?;
            Ok((Instr::JumpFalse(p), rest))
        }
        45 => Ok((Instr::Turn, bytes)),
        46 => {
            let (f, rest) = place(bytes)?;
            Ok((Instr::Call(f), rest))
        }
        47 => Ok((Instr::Return, bytes)),
        _ => Ok((Instr::ReturnVoid, bytes)),
    }
}

/// The instructions from AddL to Dup, by opcode, and the remaining bytes.
#[tactic(auto, unfolding(crate::specs::Reading::args_at))]
fn long_sums(code: u64, bytes: &[u8]) -> Result<(Instr, &[u8]), Halt>
    requires least { 49 ≤ code }
    requires greatest { code ≤ 60 }
    ensures { (most : ℕ) → Gives (λ x. (x.0, x.1.now)) result (args_at most code bytes.now) }
{
    match code {
        49 => Ok((Instr::AddL, bytes)),
        50 => Ok((Instr::SubL, bytes)),
        51 => Ok((Instr::MulL, bytes)),
        52 => Ok((Instr::DivL, bytes)),
        53 => Ok((Instr::RemL, bytes)),
        54 => Ok((Instr::AddV, bytes)),
        55 => Ok((Instr::SubV, bytes)),
        56 => Ok((Instr::MulV, bytes)),
        57 => Ok((Instr::DivV, bytes)),
        58 => Ok((Instr::RemV, bytes)),
        59 => Ok((Instr::NegL, bytes)),
        _ => Ok((Instr::Dup, bytes)),
    }
}

/// The instructions from LoadFieldAt to StorePartAt, by opcode, and the remaining bytes.
#[tactic(auto, unfolding(crate::specs::Reading::args_at))]
fn arrays(code: u64, bytes: &[u8]) -> Result<(Instr, &[u8]), Halt>
    requires least { 61 ≤ code }
    requires greatest { code ≤ 64 }
    ensures { (most : ℕ) → Gives (λ x. (x.0, x.1.now)) result (args_at most code bytes.now) }
{
    match code {
        61 => {
            let ((f, n), rest) = array(bytes)?;
            Ok((Instr::LoadFieldAt(f.first, f.width, f.kind, n), rest))
        }
        62 => {
            let ((f, n), rest) = array(bytes)?;
            Ok((Instr::StoreFieldAt(f.first, f.width, f.kind, n), rest))
        }
        63 => {
            let ((s, (f, n)), rest) = part_array(bytes)?;
            Ok((Instr::LoadPartAt(s, f.first, f.width, f.kind, n), rest))
        }
        _ => {
            let ((s, (f, n)), rest) = part_array(bytes)?;
            Ok((Instr::StorePartAt(s, f.first, f.width, f.kind, n), rest))
        }
    }
}

/// An instruction by opcode, and the remaining bytes.
fn args(code: u64, most: u16, bytes: &[u8]) -> Result<(Instr, &[u8]), Halt>
    requires { code ≤ 64 }
    ensures { Gives (λ x. (x.0, x.1.now)) result (args_at most code bytes.now) }
{
    if code <= 4 {
        operands(code, most, bytes)
    } else if code <= 8 {
        fields(code, bytes)
    } else if code <= 17 {
        sites(code, bytes)
    } else if code <= 31 {
        sums(code, bytes)
    } else if code <= 42 {
        tests(code, bytes)
    } else if code <= 48 {
        jumps(code, bytes)
    } else if code <= 60 {
        long_sums(code, bytes)
    } else {
        arrays(code, bytes)
    }
}

/// An instruction of a file with this many elements, and the remaining bytes.
#[tactic(auto, unfolding(crate::specs::Reading::instr_at))]
fn instr(most: u16, bytes: &[u8]) -> Result<(Instr, &[u8]), Halt>
    ensures { Gives (λ x. (x.0, x.1.now)) result (instr_at most bytes.now) }
{
    let (code, rest) = number(bytes, 1, 0, 64)?;
    args(code, most, rest)
}

/// This many instructions, and the remaining bytes. Memory is allocated as they are read.
fn instrs_in(
    alloc: Global,
    most: u16,
    count: u64,
    bytes: &[u8],
) -> Result<(Vec<Instr>, &[u8]), Halt>
    ensures { Gives (λ x. (x.0.items, x.1.now)) result (times (instr_at most) count bytes.now) }
{
    let mut instrs = Vec::new(alloc);
    let mut rest = bytes;
    for _ in 0..count {
        let (instr, after) = instr(most, rest)?;
        instrs.push(instr)?;
        rest = after;
    }
    Ok((instrs, rest))
}

/// A counted list of instructions, and the remaining bytes.
#[tactic(auto, unfolding(crate::specs::Reading::instrs_at))]
pub fn instrs(alloc: Global, most: u16, bytes: &[u8]) -> Result<(Vec<Instr>, &[u8]), Halt>
    ensures { Gives (λ x. (x.0.items, x.1.now)) result (instrs_at most bytes.now) }
{
    let (count, rest) = number(bytes, 4, 1, u64::from(MOST_INSTRS))?;
    instrs_in(alloc, most, count, rest)
}
