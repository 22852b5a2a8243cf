//! Sums, differences, products, quotients, remainders and comparisons.

ghost use Rattle.std.specs.Prelude.{◌≡◌, pos, neg_ℤ, ◌+ℤ◌, ◌-ℤ◌, ◌*ℤ◌, int_div, int_rem, ◌↔◌, IsErr, IsTrue, IfOk};
ghost use Rattle.sat_math.specs.Numbers.{IsNumber, IsInRange};
ghost use Rattle.sat_math.specs.Operations.{saturate, type_of, IsSigned, Compares, compare};

use crate::ranges::clamp;
use crate::{Arith, CompareOp, DivideByZero, Kind, NumType};

/// The type in which the operation is taken.
fn type_of(how: Arith) -> NumType
    ensures { result ≡ type_of how }
{
    let (kind, width) = match how {
        Arith::Int32 => (Kind::Int, 32),
        Arith::Unsigned32 => (Kind::Unsigned, 32),
        Arith::Int64 => (Kind::Int, 64),
        Arith::Unsigned64 => (Kind::Unsigned, 64),
    };
    NumType { kind, width }
}

/// The number of the operation's type that is nearest to `v`. Each type has its own arm, so that its
/// ends are constants where the type is known only at run time.
fn nearest(how: Arith, v: i128) -> i128
    ensures value { result ≡ saturate how v }
    ensures range { IsInRange (type_of how) result }
{
    match how {
        Arith::Int32 => clamp(type_of(Arith::Int32), v),
        Arith::Unsigned32 => clamp(type_of(Arith::Unsigned32), v),
        Arith::Int64 => clamp(type_of(Arith::Int64), v),
        Arith::Unsigned64 => clamp(type_of(Arith::Unsigned64), v),
    }
}

/// The sum, or the nearest number of the type. Both numbers are from -2^63 to 2^64 - 1.
pub fn add(how: Arith, a: i128, b: i128) -> i128
    requires left { IsNumber a }
    requires right { IsNumber b }
    ensures value { result ≡ saturate how (a +ℤ b) }
    ensures range { IsInRange (type_of how) result }
{
    nearest(how, a + b)
}

/// The difference, or the nearest number of the type. Both numbers are from -2^63 to 2^64 - 1.
pub fn sub(how: Arith, a: i128, b: i128) -> i128
    requires left { IsNumber a }
    requires right { IsNumber b }
    ensures value { result ≡ saturate how (a -ℤ b) }
    ensures range { IsInRange (type_of how) result }
{
    nearest(how, a - b)
}

/// The product, or the nearest number of the type. Both numbers are from -2^63 to 2^64 - 1.
pub fn mul(how: Arith, a: i128, b: i128) -> i128
    requires left { IsNumber a }
    requires right { IsNumber b }
    ensures value { result ≡ saturate how (a *ℤ b) }
    ensures range { IsInRange (type_of how) result }
{
    nearest(how, a.saturating_mul(b))
}

/// The number with its sign turned, or the nearest number of the type, which is an `Int`. The
/// number is from -2^63 to 2^64 - 1.
pub fn neg(how: Arith, a: i128) -> i128
    requires signed { IsSigned how }
    requires number { IsNumber a }
    ensures value { result ≡ saturate how (neg_ℤ a) }
    ensures range { IsInRange (type_of how) result }
{
    nearest(how, -a)
}

/// The quotient rounded toward 0, or the nearest number of the type. Both numbers are from -2^63 to
/// 2^64 - 1. An error exactly when `b` is 0.
#[tactic(auto, using(crate::proofs::Handed::quotient_fits))]
pub fn div(how: Arith, a: i128, b: i128) -> Result<i128, DivideByZero>
    requires left { IsNumber a }
    requires right { IsNumber b }
    ensures value { IfOk result (λ q. q ≡ saturate how (int_div a b)) }
    ensures range { IfOk result (λ q. IsInRange (type_of how) q) }
    ensures zero { IsErr result ↔ (b ≡ pos 0) }
{
    match a.checked_div(b) {
        Some(quotient) => Ok(nearest(how, quotient)),
        None => Err(DivideByZero),
    }
}

/// The remainder of the quotient rounded toward 0, so with the sign of `a`, or the nearest number
/// of the type. Both numbers are from -2^63 to 2^64 - 1. An error exactly when `b` is 0.
#[tactic(auto, using(crate::proofs::Handed::quotient_fits))]
pub fn rem(how: Arith, a: i128, b: i128) -> Result<i128, DivideByZero>
    requires left { IsNumber a }
    requires right { IsNumber b }
    ensures value { IfOk result (λ r. r ≡ saturate how (int_rem a b)) }
    ensures range { IfOk result (λ r. IsInRange (type_of how) r) }
    ensures zero { IsErr result ↔ (b ≡ pos 0) }
{
    match a.checked_rem(b) {
        Some(remainder) => Ok(nearest(how, remainder)),
        None => Err(DivideByZero),
    }
}

/// Whether the two numbers, each from -2^63 to 2^64 - 1, compare as the test says.
pub fn compare(op: CompareOp, a: i128, b: i128) -> bool
    requires left { IsNumber a }
    requires right { IsNumber b }
    ensures value { result ≡ compare op a b }
    ensures holds { IsTrue result ↔ Compares op a b }
{
    match op {
        CompareOp::Eq => a == b,
        CompareOp::Ne => a != b,
        CompareOp::Lt => a < b,
        CompareOp::Le => a <= b,
        CompareOp::Gt => a > b,
        CompareOp::Ge => a >= b,
    }
}
