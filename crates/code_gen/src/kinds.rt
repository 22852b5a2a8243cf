//! What holds values of types, and the instructions of operators.
ghost use Rattle.std.specs.Prelude.{◌≡◌, true};
ghost use Rattle.ulam_meaning.specs.Values.{number_type, width_of, arith_by, arith_of, arith_with};
ghost use Rattle.ulam_meaning.specs.Statements.{count_op};
ghost use Rattle.code_gen.specs.Clipped.{clip_instr};
ghost use Rattle.code_gen.specs.Scheme.{operand_of, answer_of, by_arith, pair_instr, prefix_instr, built_instr, blank_instr, update_instr};
ghost use Rattle.code_gen.specs.Seen.{program_of};

use crate::classes::Classes;
use crate::lookup::type_number;
use sat_math::{Arith, Kind, NumType};
use stack_code::{Answer, Instr, Operand};
use ulam_tree::resolved::{Built, Ty};
use ulam_tree::{PairOp, PrefixOp};

/// What holds a value of a type.
pub fn operand_of(ty: Ty) -> Operand
    ensures { result ≡ operand_of ty }
{
    match ty {
        Ty::Num { .. } => Operand::Number,
        _ => Operand::Atom,
    }
}

/// What a function of a type gives back.
pub fn answer_of(ty: Ty) -> Answer
    ensures { result ≡ answer_of ty }
{
    match ty {
        Ty::Num { .. } => Answer::Number,
        Ty::Nothing => Answer::Nothing,
        _ => Answer::Atom,
    }
}

/// The type of numbers that a type is, if it is one.
pub fn number_type(ty: Ty) -> Option<NumType>
    ensures { result ≡ number_type ty }
{
    match ty {
        Ty::Num { num } => Some(num),
        _ => None,
    }
}

/// The width of a type of numbers.
pub fn width_of(ty: Ty) -> u8
    ensures { result ≡ width_of ty }
{
    match ty {
        Ty::Num { num } => num.width,
        _ => 1,
    }
}

/// How arithmetic is done: signed or not, at 32 bits or at 64.
fn arith_by(kind: Kind, short: bool) -> Arith
    ensures { result ≡ arith_by kind short }
{
    match (kind, short) {
        (Kind::Int, true) => Arith::Int32,
        (Kind::Int, false) => Arith::Int64,
        (_, true) => Arith::Unsigned32,
        (_, false) => Arith::Unsigned64,
    }
}

/// The arithmetic whose result has a type.
pub fn arith_of(ty: Ty) -> Arith
    ensures { result ≡ arith_of ty }
{
    match ty {
        Ty::Num { num } => arith_by(num.kind, num.width <= 32),
        _ => Arith::Int32,
    }
}

/// The arithmetic of an operator followed by `=`, by the type of the left side and the width of the
/// right one.
fn arith_with(ty: Ty, width: u8) -> Arith
    ensures { result ≡ arith_with ty width }
{
    match ty {
        Ty::Num { num } => arith_by(num.kind, num.width <= 32 && width <= 32),
        _ => Arith::Int32,
    }
}

/// One of four, by how arithmetic is done.
fn by_arith(how: Arith, int: Instr, unsigned: Instr, long: Instr, long_unsigned: Instr) -> Instr
    ensures { result ≡ by_arith how int unsigned long long_unsigned }
{
    match how {
        Arith::Int32 => int,
        Arith::Unsigned32 => unsigned,
        Arith::Int64 => long,
        Arith::Unsigned64 => long_unsigned,
    }
}

/// The instruction of an operator, by its arithmetic and the width of its left side. `&&` and `||`
/// are choices, and have no single instruction.
pub fn pair_instr(op: PairOp, how: Arith, width: u8) -> Instr
    ensures { result ≡ pair_instr op how width }
{
    use Instr::*;
    match op {
        PairOp::Add => by_arith(how, AddI, AddU, AddL, AddV),
        PairOp::Sub => by_arith(how, SubI, SubU, SubL, SubV),
        PairOp::Mul => by_arith(how, MulI, MulU, MulL, MulV),
        PairOp::Div => by_arith(how, DivI, DivU, DivL, DivV),
        PairOp::Rem => by_arith(how, RemI, RemU, RemL, RemV),
        PairOp::And | PairOp::Both => And,
        PairOp::Or | PairOp::Either => Or,
        PairOp::Xor => Xor,
        PairOp::Shl => Shl(width),
        PairOp::Shr => Shr,
        PairOp::Eq => Eq,
        PairOp::Ne => Ne,
        PairOp::Lt => Lt,
        PairOp::Le => Le,
        PairOp::Gt => Gt,
        PairOp::Ge => Ge,
    }
}

/// The instruction of an operator followed by `=`, by the type of the left side and the width of
/// the right one.
pub fn update_instr(op: PairOp, ty: Ty, width: u8) -> Instr
    ensures { result ≡ update_instr op ty width }
{
    pair_instr(op, arith_with(ty, width), width_of(ty))
}

/// The operator of `++`, if `up`, or of `--`.
pub fn count_op(up: bool) -> PairOp
    ensures { result ≡ count_op up }
{
    if up { PairOp::Add } else { PairOp::Sub }
}

/// The instruction of `-`, `!` or `~`, by the type of the result.
pub fn prefix_instr(op: PrefixOp, ty: Ty) -> Instr
    ensures value { result ≡ prefix_instr op ty }
    ensures whole { clip_instr result ≡ result }
{
    match op {
        PrefixOp::Minus => {
            if width_of(ty) <= 32 {
                Instr::NegI
            } else {
                Instr::NegL
            }
        }
        PrefixOp::Not => Instr::NotB,
        PrefixOp::Flip => Instr::NotW(width_of(ty)),
    }
}

/// The instruction of a function of the window or of the random stream.
pub fn built_instr(call: Built) -> Instr
    ensures value { result ≡ built_instr call }
    ensures whole { clip_instr result ≡ result }
{
    match call {
        Built::Swap => Instr::Swap,
        Built::IsLive => Instr::IsLive,
        Built::IsEmpty => Instr::IsEmpty,
        Built::Create => Instr::RandCreate,
        Built::OneIn => Instr::RandOneIn,
    }
}

/// What gives the value of a declaration without one: 0, Empty, or the element's atom with state 0.
pub fn blank_instr(classes: &Classes, ty: Ty) -> Instr
    ensures value { result ≡ blank_instr (program_of classes.now) ty }
    ensures whole { clip_instr result ≡ result }
{
    match ty {
        Ty::Num { .. } => Instr::PushNum(0),
        _ => Instr::PushAtom(type_number(classes, ty)),
    }
}
