//! The table of types.
ghost use Rattle.std.specs.Prelude.{◌≡◌};
ghost use Rattle.type_rules.specs.Rows as row;
ghost use Rattle.ulam_types.specs.Shown.{Gives};

use crate::fault::TypeFault;
use feast_base::Place;
use sat_math::{Kind, NumType};
use type_rules::NumClass;
use ulam_tree::resolved::Ty;
use ulam_tree::{PairOp, PrefixOp};

/// The type `Int` of a width.
pub fn int(width: u8) -> Ty
    ensures { result ≡ row.int width }
{
    Ty::Num {
        num: NumType {
            kind: Kind::Int,
            width,
        },
    }
}

/// The type `Unsigned` of a width.
pub fn unsigned_type(width: u8) -> Ty
    ensures { result ≡ row.unsigned_type width }
{
    Ty::Num {
        num: NumType {
            kind: Kind::Unsigned,
            width,
        },
    }
}

/// The type `Bits` of a width.
pub fn bits(width: u8) -> Ty
    ensures { result ≡ row.bits width }
{
    Ty::Num {
        num: NumType {
            kind: Kind::Bits,
            width,
        },
    }
}

/// The type `Bool`.
pub fn truth() -> Ty
    ensures { result ≡ row.bool }
{
    Ty::Num {
        num: NumType {
            kind: Kind::Bool,
            width: 1,
        },
    }
}

/// The class of a type.
pub fn class_of(ty: Ty) -> NumClass
    ensures { result ≡ row.class_of ty }
{
    match ty {
        Ty::Num { num } => match num.kind {
            Kind::Int => NumClass::Int { width: num.width },
            Kind::Unsigned => NumClass::Unsigned { width: num.width },
            Kind::Unary => NumClass::Unsigned { width: num.width },
            Kind::Bits => NumClass::Bits { width: num.width },
            Kind::Bool => NumClass::Bool,
        },
        _ => NumClass::Other,
    }
}

/// The kind that a plain number takes from the type that it is for.
pub fn kind_from(ty: Ty) -> Kind
    ensures { result ≡ row.kind_from ty }
{
    match class_of(ty) {
        NumClass::Unsigned { .. } => Kind::Unsigned,
        NumClass::Bits { .. } => Kind::Bits,
        _ => Kind::Int,
    }
}

/// The kind that one operand takes if it is plain.
pub fn beside(plain: bool, ty: Ty) -> Kind
    ensures { result ≡ row.beside plain ty }
{
    if plain { Kind::Int } else { kind_from(ty) }
}

/// The type of a plain number.
pub fn plain_type(kind: Kind) -> Ty
    ensures { result ≡ row.plain_type kind }
{
    Ty::Num {
        num: NumType { kind, width: 32 },
    }
}

/// Whether a value is in the range of a plain number of a kind.
pub fn plain_fits(kind: Kind, value: u32) -> bool
    ensures { result ≡ row.plain_fits kind value }
{
    match kind {
        Kind::Int => value < 1 << 31,
        _ => true,
    }
}

/// The width of a result, given those of the operands.
pub fn wide(m: u8, n: u8) -> u8
    ensures { result ≡ row.wide m n }
{
    if m <= 32 && n <= 32 { 32 } else { 64 }
}

/// The type of a sum, a difference, a product, a quotient or a remainder.
fn arith_type(a: NumClass, b: NumClass) -> Option<Ty>
    ensures { result ≡ row.arith_type a b }
{
    match (a, b) {
        (NumClass::Int { width: m }, NumClass::Int { width: n }) => Some(int(wide(m, n))),
        (NumClass::Unsigned { width: m }, NumClass::Unsigned { width: n }) => {
            Some(unsigned_type(wide(m, n)))
        }
        _ => None,
    }
}

/// The type of a comparison by order.
fn order_type(a: NumClass, b: NumClass) -> Option<Ty>
    ensures { result ≡ row.order_type a b }
{
    match (a, b) {
        (NumClass::Int { .. }, NumClass::Int { .. }) => Some(truth()),
        (NumClass::Unsigned { .. }, NumClass::Unsigned { .. }) => Some(truth()),
        _ => None,
    }
}

/// The type of a comparison for equality.
fn equal_type(a: NumClass, b: NumClass) -> Option<Ty>
    ensures { result ≡ row.equal_type a b }
{
    match (a, b) {
        (NumClass::Int { .. }, NumClass::Int { .. }) => Some(truth()),
        (NumClass::Unsigned { .. }, NumClass::Unsigned { .. }) => Some(truth()),
        (NumClass::Bits { .. }, NumClass::Bits { .. }) => Some(truth()),
        (NumClass::Bool, NumClass::Bool) => Some(truth()),
        _ => None,
    }
}

/// The type of a combination of bits.
fn bits_type(a: NumClass, b: NumClass) -> Option<Ty>
    ensures { result ≡ row.bits_type a b }
{
    match (a, b) {
        (NumClass::Bits { width: m }, NumClass::Bits { width: n }) => Some(bits(m.max(n))),
        _ => None,
    }
}

/// The type of shifted bits. The number of places is any number if it is a plain one, else an `Unsigned`.
fn shift_type(plain: bool, a: NumClass, b: NumClass) -> Option<Ty>
    ensures { result ≡ row.shift_type plain a b }
{
    match (a, b) {
        (NumClass::Bits { width: m }, NumClass::Unsigned { .. }) => Some(bits(m)),
        (NumClass::Bits { width: m }, _) => { if plain { Some(bits(m)) } else { None } }
        _ => None,
    }
}

/// The type of a combination of truth values.
fn truth_type(a: NumClass, b: NumClass) -> Option<Ty>
    ensures { result ≡ row.truth_type a b }
{
    match (a, b) {
        (NumClass::Bool, NumClass::Bool) => Some(truth()),
        _ => None,
    }
}

/// The type of an operation on two numbers; `plain` says that the second is a plain number.
fn pair_type(op: PairOp, plain: bool, left: Ty, right: Ty) -> Option<Ty>
    ensures { result ≡ row.pair_type op plain left right }
{
    let a = class_of(left);
    let b = class_of(right);
    match op {
        PairOp::Add | PairOp::Sub | PairOp::Mul | PairOp::Div | PairOp::Rem => arith_type(a, b),
        PairOp::And | PairOp::Or | PairOp::Xor => bits_type(a, b),
        PairOp::Shl | PairOp::Shr => shift_type(plain, a, b),
        PairOp::Both | PairOp::Either => truth_type(a, b),
        PairOp::Eq | PairOp::Ne => equal_type(a, b),
        PairOp::Lt | PairOp::Le | PairOp::Gt | PairOp::Ge => order_type(a, b),
    }
}

/// Whether an operation takes numbers with signs.
fn takes_signs(op: PairOp) -> bool
    ensures { result ≡ row.takes_signs op }
{
    match op {
        PairOp::And | PairOp::Or | PairOp::Xor => false,
        PairOp::Shl | PairOp::Shr => false,
        PairOp::Both | PairOp::Either => false,
        _ => true,
    }
}

/// Whether one number has a sign and the other has none.
fn are_mixed(a: NumClass, b: NumClass) -> bool
    ensures { result ≡ row.are_mixed a b }
{
    match (a, b) {
        (NumClass::Int { .. }, NumClass::Unsigned { .. }) => true,
        (NumClass::Unsigned { .. }, NumClass::Int { .. }) => true,
        _ => false,
    }
}

/// The type of two operands, or what is wrong with them. Whether the right one is plain matters
/// for shifts alone.
pub fn pair_row(place: Place, op: PairOp, plain: bool, left: Ty, right: Ty) -> Result<Ty, TypeFault>
    ensures { Gives (λ x. x) result (row.pair_found place op plain left right) }
{
    match pair_type(op, plain, left, right) {
        Some(ty) => Ok(ty),
        None => {
            if takes_signs(op) && are_mixed(class_of(left), class_of(right)) {
                Err(TypeFault::MixedSigns(place))
            } else {
                Err(TypeFault::WrongType(place))
            }
        }
    }
}

/// The type of an operation on one number.
pub fn prefix_type(op: PrefixOp, ty: Ty) -> Option<Ty>
    ensures { result ≡ row.prefix_type op ty }
{
    match (op, class_of(ty)) {
        (PrefixOp::Minus, NumClass::Int { width }) => Some(int(wide(width, width))),
        (PrefixOp::Not, NumClass::Bool) => Some(truth()),
        (PrefixOp::Flip, NumClass::Bits { width }) => Some(bits(width)),
        _ => None,
    }
}

/// The type of a cast: any number becomes any number.
pub fn cast_type(to: Ty, ty: Ty) -> Option<Ty>
    ensures { result ≡ row.cast_type to ty }
{
    match (to, ty) {
        (Ty::Num { num }, Ty::Num { .. }) => Some(Ty::Num { num }),
        _ => None,
    }
}

/// Whether values of a type can be an index.
pub fn is_index(ty: Ty) -> bool
    ensures { result ≡ row.is_index ty }
{
    match class_of(ty) {
        NumClass::Int { .. } | NumClass::Unsigned { .. } => true,
        _ => false,
    }
}

/// Whether a type is an `Unsigned`.
pub fn is_unsigned(ty: Ty) -> bool
    ensures { result ≡ row.is_unsigned ty }
{
    match class_of(ty) {
        NumClass::Unsigned { .. } => true,
        _ => false,
    }
}

/// Whether a type is `Bool`.
pub fn is_truth(ty: Ty) -> bool
    ensures { result ≡ row.is_truth ty }
{
    match class_of(ty) {
        NumClass::Bool => true,
        _ => false,
    }
}

/// Whether a type has no values.
pub fn is_void(ty: Ty) -> bool
    ensures { result ≡ row.is_void ty }
{
    match ty {
        Ty::Nothing => true,
        _ => false,
    }
}

/// Whether a value of a type can be assigned to a number of this kind.
pub fn fits_number(kind: Kind, ty: Ty) -> bool
    ensures { result ≡ row.fits_number kind (row.class_of ty) }
{
    match (kind, class_of(ty)) {
        (Kind::Int, NumClass::Int { .. }) => true,
        (Kind::Unsigned, NumClass::Unsigned { .. }) => true,
        (Kind::Unary, NumClass::Unsigned { .. }) => true,
        (Kind::Bits, NumClass::Bits { .. }) => true,
        (Kind::Bool, NumClass::Bool) => true,
        _ => false,
    }
}

/// The width of an operand in an operation.
pub fn width_of(ty: Ty) -> u8
    ensures { result ≡ row.width_of ty }
{
    match class_of(ty) {
        NumClass::Int { width } => width,
        NumClass::Unsigned { width } => width,
        NumClass::Bits { width } => width,
        _ => 1,
    }
}
