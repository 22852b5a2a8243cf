//! What the members of a class may name.
ghost use Rattle.std.specs.Prelude.{◌≡◌, ◌-◌, ◌^◌, ◌+◌, is_some, int_le, pos, neg_ℤ};
ghost use Rattle.ulam_names.specs.ClassWalk as walk;
ghost use Rattle.ulam_names.specs.Classes.{is_built_in, is_member_type, may_be_member, takes_value};
ghost use Rattle.ulam_tree.specs.Found.{value_or_fault};
ghost use Rattle.ulam_names.specs.Faults.{bad_width};
ghost use Rattle.ulam_names.specs.Scopes.{as_number, in_range};
ghost use Rattle.ulam_names.specs.Shown.{context_of, class_context, IsAsFound};
ghost use Rattle.ulam_names.specs.NamesView.{names_view};

use crate::fault::NameFault;
use crate::names::{Names, is_truth};
use crate::scope::Context;
use crate::table::Table;
use crate::types::{built_in, type_in, width_value};
use bit_field::STATE_BITS;
use feast_base::Place;
use sat_math::{Kind, NumType};
use ulam_tree::resolved::{Named, Ty};
use ulam_tree::{TypeRef, Width};

/// A context without locals, with all typedefs and constants so far.
fn class_context<'c, 'a>(known: &'c Table<'a, bool>, names: &'c Names<'a>) -> Context<'c, 'a>
    ensures { context_of result ≡ class_context known.now (names_view names.now) }
{
    Context {
        heads: &[],
        classes: known,
        own: 0,
        typedefs: &names.typedefs,
        typedefs_before: names.typedefs.len(),
        constants: &names.constants,
        constants_before: names.constants.len(),
        params: 0,
    }
}

/// The type of a member.
pub fn member_type(known: &Table<bool>, names: &Names, of: &TypeRef) -> Result<Named, NameFault>
    ensures { IsAsFound result (walk.member_type known.now names.now of.now) }
{
    type_in(&class_context(known, names), &[], of)
}

/// A type as a type of numbers.
pub fn number_type(named: Named) -> Result<NumType, NameFault>
    ensures { IsAsFound result (value_or_fault (as_number named.ty) (bad_width named.place)) }
{
    match named.ty {
        Ty::Num { num } => Ok(num),
        _ => Err(NameFault::BadWidth(named.place)),
    }
}

/// Whether a name is that of a built-in type.
pub fn is_built_in(name: &[u8]) -> bool
    ensures { result ≡ is_built_in name.now }
{
    built_in(name).is_some()
}

/// The length of an array, or 0 if the member is not an array.
pub fn array_length(
    known: &Table<bool>,
    names: &Names,
    place: Place,
    length: &Option<Width>,
) -> Result<u32, NameFault>
    ensures { IsAsFound result (walk.length_of names.now place length.now) }
{
    match length {
        None => Ok(0),
        Some(length) => {
            let value = width_value(&class_context(known, names), &[], length)?;
            if 1 <= value && value <= i128::from(STATE_BITS) {
                Ok(value as u32)
            } else {
                Err(NameFault::BadWidth(place))
            }
        }
    }
}

/// Whether a data member may have a type.
fn is_member_type(known: &Table<bool>, ty: Ty) -> bool
    ensures { result ≡ is_member_type known.now ty }
{
    match ty {
        Ty::Num { .. } | Ty::Window | Ty::Random => true,
        Ty::Class { class } => match known.at(class as usize) {
            Some(quark) => *quark,
            None => false,
        },
        _ => false,
    }
}

/// Whether a type is a type of numbers.
fn is_number_type(ty: Ty) -> bool
    ensures { result ≡ is_some (as_number ty) }
{
    match ty {
        Ty::Num { .. } => true,
        _ => false,
    }
}

/// Whether a data member may have a type, or an array of it.
pub fn may_be_member(known: &Table<bool>, ty: Ty, array: bool) -> bool
    ensures { result ≡ may_be_member known.now ty array }
{
    is_member_type(known, ty) && (!array || is_number_type(ty))
}

/// Whether a number is below a power of 2.
fn below_power(value: i128, width: u8) -> bool
    ensures { result ≡ int_le value (pos (2 ^ width - 1)) }
{
    if value < 0 {
        return true;
    }
    if width >= 127 {
        return true;
    }
    value.unsigned_abs() < 1u128 << width
}

/// Whether a number is at least the negative of a power of 2.
fn above_power(value: i128, width: u8) -> bool
    ensures { result ≡ int_le (neg_ℤ (pos (2 ^ width))) value }
{
    if value >= 0 {
        return true;
    }
    if width >= 127 {
        return true;
    }
    value.unsigned_abs() <= 1u128 << width
}

/// Whether a number is in the range of a type.
fn in_range(num: NumType, value: i128) -> bool
    ensures { result ≡ in_range num value }
{
    let width = num.width;
    match num.kind {
        Kind::Int => {
            let width = width.saturating_sub(1);
            above_power(value, width) && below_power(value, width)
        }
        Kind::Unsigned | Kind::Bits => 0 <= value && below_power(value, width),
        Kind::Bool => 0 <= value && value <= 1,
        Kind::Unary => 0 <= value && value <= i128::from(width),
    }
}

/// Whether a constant of a type may have a value.
pub fn takes_value(num: NumType, truth: bool, value: i128) -> bool
    ensures { result ≡ takes_value num (truth, value) }
{
    is_truth(num.kind) == truth && in_range(num, value)
}
