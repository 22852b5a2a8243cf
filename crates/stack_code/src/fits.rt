//! The test of an instruction's arguments.

ghost use Rattle.std.specs.Prelude.{◌≡◌};
ghost use Rattle.stack_code.specs.Valid.{args_fit, type_fits, field_fits, number_fits};
ghost use Rattle.sat_math.specs.Numbers.{least_width, greatest_width};

use crate::instr::Instr;
use bit_field::STATE_BITS;
use sat_math::{Kind, NumType};

/// The least width of a kind.
fn least_width(kind: Kind) -> u8
    ensures { result ≡ least_width kind }
{
    match kind {
        Kind::Int => 2,
        Kind::Unsigned | Kind::Bits | Kind::Bool | Kind::Unary => 1,
    }
}

/// The greatest width of a kind.
fn greatest_width(kind: Kind) -> u8
    ensures { result ≡ greatest_width kind }
{
    match kind {
        Kind::Bool => 1,
        Kind::Int | Kind::Unsigned | Kind::Bits | Kind::Unary => 64,
    }
}

/// Whether a kind allows a width.
fn type_fits(of: NumType) -> bool
    ensures { result ≡ type_fits of }
{
    if least_width(of.kind) <= of.width {
        of.width <= greatest_width(of.kind)
    } else {
        false
    }
}

/// Whether there is at least one field, and all `n` from the first bit on fit in an atom's state.
fn fields_fit(first: u8, width: u8, kind: Kind, n: u8) -> bool
    ensures { result ≡ field_fits first (record { kind = kind; width = width }) n }
{
    if !type_fits(NumType { kind, width }) {
        return false;
    }
    if n < 1 {
        return false;
    }
    u32::from(first) + u32::from(n) * u32::from(width) <= STATE_BITS
}

/// Whether this number can be an operand.
fn number_fits(v: i128) -> bool
    ensures { result ≡ number_fits v }
{
    if v >= 0 {
        v < 18_446_744_073_709_551_616
    } else {
        v >= -9_223_372_036_854_775_808
    }
}

/// Whether the kind `Bits` allows a width.
fn bits_fit(width: u8) -> bool
    ensures { result ≡ type_fits (record { kind = Kind.Bits; width = width }) }
{
    type_fits(NumType {
        kind: Kind::Bits,
        width,
    })
}

/// Whether the arguments of an instruction are allowed. It does not look at slots, jump targets
/// and functions.
pub fn args_fit(i: Instr) -> bool
    ensures { result ≡ args_fit i }
{
    match i {
        Instr::NotW(w) => bits_fit(w),
        Instr::Shl(w) => bits_fit(w),
        Instr::Fit(kind, width) => type_fits(NumType { kind, width }),
        Instr::PushNum(v) => number_fits(v),
        Instr::LoadField(f, w, kind) => fields_fit(f, w, kind, 1),
        Instr::StoreField(f, w, kind) => fields_fit(f, w, kind, 1),
        Instr::LoadPart(_, f, w, kind) => fields_fit(f, w, kind, 1),
        Instr::StorePart(_, f, w, kind) => fields_fit(f, w, kind, 1),
        Instr::LoadFieldAt(f, w, kind, n) => fields_fit(f, w, kind, n),
        Instr::StoreFieldAt(f, w, kind, n) => fields_fit(f, w, kind, n),
        Instr::LoadPartAt(_, f, w, kind, n) => fields_fit(f, w, kind, n),
        Instr::StorePartAt(_, f, w, kind, n) => fields_fit(f, w, kind, n),
        _ => true,
    }
}
