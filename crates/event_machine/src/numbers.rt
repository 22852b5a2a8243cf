//! What operators give, and numbers as sites, indices, bounds and fields of atoms.

ghost use Rattle.std.specs.Prelude.{◌≡◌, ℕ, pos, ◌<◌, IsTrue, IfSome, ◌≤◌, int_div, int_rem};
ghost use Rattle.datum.specs.Fields.{get_field};
ghost use Rattle.sat_math.specs.Operations.{of_bool, low64, shifted_up, shifted_down};
ghost use Rattle.sat_math.specs.declared.Kind.TheVariants.{Bits};
ghost use Rattle.sat_math.specs.Numbers.{modulo, IsNumber};
ghost use Rattle.bit_field.specs.Words.{with_field};
ghost use Rattle.bit_field.specs.Atom.{AtomValue};
ghost use Rattle.stack_code.specs.Sorts.{divide, flip, num_type};
ghost use Rattle.stack_code.specs.Machine.{Led, Held, at_site, at_index, at_bound, kept_bits};
ghost use Rattle.stack_code.specs.Valid.{type_fits};
ghost use Rattle.stack_code.specs.Shapes.{binary_of, BinaryFits, unary_of, UnaryFits};
ghost use Rattle.event_machine.specs.Works.{FieldFits, with_place};

use bit_field::Atom;
use datum::Number;
use sat_math::{Arith, NumType};
use stack_code::{BinaryOp, UnaryOp};

/// The low 64 bits of a number.
#[inline]
pub fn low64(v: i128) -> u64
    ensures { result ≡ low64 v }
{
    v.rem_euclid(1i128 << 64) as u64
}

/// A word as a number.
#[inline]
#[tactic(auto, using(crate::proofs::Fits::small_number))]
pub fn of_word(n: u64) -> Number
    ensures { result ≡ pos n }
{
    Number::new(i128::from(n))
}

/// 1 for true and 0 for false.
#[inline]
pub fn of_bool(b: bool) -> Number
    ensures { result ≡ of_bool b }
{
    if b { of_word(1) } else { of_word(0) }
}

/// The quotient, or `None` if the divisor is 0.
#[inline]
#[tactic(auto, using(crate::proofs::Fits::saturated_number))]
fn quotient(how: Arith, a: i128, b: i128) -> Option<Number>
    requires left { IsNumber a }
    requires right { IsNumber b }
    ensures { result ≡ divide how int_div a b }
{
    match sat_math::div(how, a, b) {
        Ok(v) => Some(Number::new(v)),
        Err(_) => None,
    }
}

/// The remainder, or `None` if the divisor is 0.
#[inline]
#[tactic(auto, using(crate::proofs::Fits::saturated_number))]
fn remainder(how: Arith, a: i128, b: i128) -> Option<Number>
    requires left { IsNumber a }
    requires right { IsNumber b }
    ensures { result ≡ divide how int_rem a b }
{
    match sat_math::rem(how, a, b) {
        Ok(v) => Some(Number::new(v)),
        Err(_) => None,
    }
}

/// The bits shifted left by a count; the low `width` bits are kept. A negative count gives 0.
#[inline]
fn shifted_up(width: u8, a: i128, b: i128) -> Number
    requires fits { IsTrue (type_fits (num_type Bits width)) }
    requires count { IsNumber b }
    ensures { Some result ≡ shifted_up width a b }
{
    if b < 0 {
        of_word(0)
    } else {
        of_word(sat_math::shl(width, low64(a), b as u64))
    }
}

/// The bits shifted right by a count. A negative count gives 0.
#[inline]
fn shifted_down(a: i128, b: i128) -> Number
    requires { IsNumber b }
    ensures { Some result ≡ shifted_down a b }
{
    if b < 0 {
        of_word(0)
    } else {
        of_word(sat_math::shr(low64(a), b as u64))
    }
}

/// The result of an operator on two numbers, or `None` for a division by 0.
#[inline]
#[tactic(auto, using(crate::proofs::Fits::saturated_number))]
pub fn apply_two(op: BinaryOp, a: Number, b: Number) -> Option<Number>
    requires { BinaryFits op }
    ensures { result ≡ binary_of op a b }
{
    let (x, y) = (a.value(), b.value());
    match op {
        BinaryOp::Add(how) => Some(Number::new(sat_math::add(how, x, y))),
        BinaryOp::Sub(how) => Some(Number::new(sat_math::sub(how, x, y))),
        BinaryOp::Mul(how) => Some(Number::new(sat_math::mul(how, x, y))),
        BinaryOp::Div(how) => quotient(how, x, y),
        BinaryOp::Rem(how) => remainder(how, x, y),
        BinaryOp::And => Some(of_word(sat_math::and(low64(x), low64(y)))),
        BinaryOp::Or => Some(of_word(sat_math::or(low64(x), low64(y)))),
        BinaryOp::Xor => Some(of_word(sat_math::xor(low64(x), low64(y)))),
        BinaryOp::Shl(width) => Some(shifted_up(width, x, y)),
        BinaryOp::Shr => Some(shifted_down(x, y)),
        BinaryOp::Test(op) => Some(of_bool(sat_math::compare(op, x, y))),
    }
}

/// The result of an operator on one number.
#[inline]
#[tactic(auto, using(crate::proofs::Fits::saturated_number, crate::proofs::Fits::in_range_number, crate::proofs::Fits::type_is))]
pub fn apply_one(op: UnaryOp, a: Number) -> Number
    requires { UnaryFits op }
    ensures { result ≡ unary_of op a }
{
    let x = a.value();
    match op {
        UnaryOp::Neg(how) => Number::new(sat_math::neg(how, x)),
        UnaryOp::Flip(width) => flip(width, x),
        UnaryOp::Fit(to) => Number::new(sat_math::cast(to, x)),
        UnaryOp::Not => of_bool(x == 0),
    }
}

/// The low `width` bits of the complement.
#[inline]
#[tactic(auto, using(crate::proofs::Fits::type_is))]
fn flip(width: u8, a: i128) -> Number
    requires { IsTrue (type_fits (num_type Bits width)) }
    ensures { result ≡ flip width a }
{
    of_word(sat_math::not(width, low64(a)))
}

/// The site with this number, if there is one.
#[inline]
pub fn site(v: Number) -> Option<u8>
    ensures within { IfSome result (λ n. n ≤ 40) }
    ensures place { (go : ℕ → Led Held) → at_site v go ≡ with_place 4 result go }
{
    let v = v.value();
    if v < 0 || v > 40 { None } else { Some(v as u8) }
}

/// The number as an index, if it is in range for an array of this length.
#[inline]
pub fn index(v: Number, n: u8) -> Option<u8>
    ensures within { IfSome result (λ i. i < n) }
    ensures place { (go : ℕ → Led Held) → at_index v n go ≡ with_place 7 result go }
{
    let v = v.value();
    if v < 0 || v >= i128::from(n) {
        None
    } else {
        Some(v as u8)
    }
}

/// The number as the bound of a random number, if it is above 0.
#[inline]
pub fn bound(v: Number) -> Option<u64>
    ensures some { IfSome result (λ n. 0 < n) }
    ensures place { (go : ℕ → Led Held) → at_bound v go ≡ with_place 5 result go }
{
    let v = v.value();
    if v < 1 { None } else { Some(v as u64) }
}

/// A field of an atom as a number of its type.
#[inline]
#[tactic(auto, using(crate::proofs::Fits::field_is, crate::proofs::Fits::in_range_number))]
pub fn read_field(atom: &Atom, first: u8, of: NumType) -> Number
    requires { FieldFits first of 1 }
    ensures { result ≡ get_field atom.now first of }
{
    let bits = atom.get(u32::from(first), u32::from(of.width));
    Number::new(sat_math::load(of, bits))
}

/// The atom with a field set to a number, converted to the type of the field.
#[inline]
#[tactic(auto, using(crate::proofs::Fits::field_is))]
pub fn write_field(atom: Atom, first: u8, of: NumType, v: Number) -> Atom
    requires { FieldFits first of 1 }
    ensures { result ≡ with_field atom first of.width (kept_bits of v) }
{
    let mut changed = atom;
    changed.set(
        u32::from(first),
        u32::from(of.width),
        sat_math::store(of, v.value()),
    );
    changed
}
