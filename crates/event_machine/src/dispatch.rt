//! The table of plain instructions: what the machine does for each, by its shape.

ghost use Rattle.std.specs.Prelude.{◌≤◌, length, IsTrue};
ghost use Rattle.stack_code.specs.Machine.{work};
ghost use Rattle.stack_code.specs.Sorts.{sort};
ghost use Rattle.stack_code.specs.Valid.{args_fit};
ghost use Rattle.event_machine.specs.Works.{Works};
ghost use Rattle.stack_code.specs.declared.limits.TheConstants.{MOST_OPERANDS};

use crate::activation::Activation;
use crate::ending::Leads;
use crate::{fields, plain};
use bit_field::Atom;
use datum::{Datum, Number};
use sat_math::{Arith, CompareOp};
use stack_code::{BinaryOp, Instr, UnaryOp};

/// Does a plain instruction, in an event whose acting type is `kind`. It is the table of
/// `Instr::shape` once more, with a call for each shape, so that each operator is compiled into an
/// arm of its own. It has to be inlined into the loop of a run. That is refused for a function that
/// is too long with all that it must inline, so what it calls is only hinted to be inlined.
#[inline(always)]
#[tactic(auto, using(crate::proofs::Fits::field_is, crate::proofs::Fits::number_is))]
pub fn plain(running: &mut Activation, kind: u16, i: &Instr) -> Leads
    requires fits { IsTrue (args_fit i.now) }
    requires room { length running.old.stack ≤ MOST_OPERANDS }
    ensures { Works (work kind (sort i.now) running.old) running.new result }
{
    match *i {
        Instr::PushNum(v) => plain::give(running, Datum::Number(Number::new(v))),
        Instr::PushAtom(k) => plain::give(running, Datum::Atom(Atom::new(k, 0))),
        Instr::LoadLocal(s) => plain::load(running, s),
        Instr::StoreLocal(s) => plain::store(running, s),
        Instr::Pop => plain::drop_top(running),
        Instr::LoadField(f, w, of) => fields::load_field(running, kind, f, w, of),
        Instr::StoreField(f, w, of) => fields::store_field(running, kind, f, w, of),
        Instr::LoadPart(s, f, w, of) => fields::load_part(running, s, f, w, of),
        Instr::StorePart(s, f, w, of) => fields::store_part(running, s, f, w, of),
        Instr::LoadSelf => plain::own(running, kind),
        Instr::LoadSite => plain::load_site(running),
        Instr::StoreSite => plain::store_site(running),
        Instr::Swap => plain::exchange(running),
        Instr::IsLive => plain::is_live(running),
        Instr::IsEmpty => plain::is_empty(running),
        Instr::RandCreate => plain::create(running),
        Instr::RandOneIn => plain::one_in(running),
        Instr::IsKind(k) => plain::same(running, k),
        Instr::AddI => plain::two(running, BinaryOp::Add(Arith::Int32)),
        Instr::SubI => plain::two(running, BinaryOp::Sub(Arith::Int32)),
        Instr::MulI => plain::two(running, BinaryOp::Mul(Arith::Int32)),
        Instr::DivI => plain::two(running, BinaryOp::Div(Arith::Int32)),
        Instr::RemI => plain::two(running, BinaryOp::Rem(Arith::Int32)),
        Instr::AddU => plain::two(running, BinaryOp::Add(Arith::Unsigned32)),
        Instr::SubU => plain::two(running, BinaryOp::Sub(Arith::Unsigned32)),
        Instr::MulU => plain::two(running, BinaryOp::Mul(Arith::Unsigned32)),
        Instr::DivU => plain::two(running, BinaryOp::Div(Arith::Unsigned32)),
        Instr::RemU => plain::two(running, BinaryOp::Rem(Arith::Unsigned32)),
        Instr::NegI => plain::one(running, UnaryOp::Neg(Arith::Int32)),
        Instr::And => plain::two(running, BinaryOp::And),
        Instr::Or => plain::two(running, BinaryOp::Or),
        Instr::Xor => plain::two(running, BinaryOp::Xor),
        Instr::NotW(w) => plain::one(running, UnaryOp::Flip(w)),
        Instr::Shl(w) => plain::two(running, BinaryOp::Shl(w)),
        Instr::Shr => plain::two(running, BinaryOp::Shr),
        Instr::Fit(of, w) => plain::fit(running, of, w),
        Instr::NotB => plain::one(running, UnaryOp::Not),
        Instr::Eq => plain::two(running, BinaryOp::Test(CompareOp::Eq)),
        Instr::Ne => plain::two(running, BinaryOp::Test(CompareOp::Ne)),
        Instr::Lt => plain::two(running, BinaryOp::Test(CompareOp::Lt)),
        Instr::Le => plain::two(running, BinaryOp::Test(CompareOp::Le)),
        Instr::Gt => plain::two(running, BinaryOp::Test(CompareOp::Gt)),
        Instr::Ge => plain::two(running, BinaryOp::Test(CompareOp::Ge)),
        Instr::AddL => plain::two(running, BinaryOp::Add(Arith::Int64)),
        Instr::SubL => plain::two(running, BinaryOp::Sub(Arith::Int64)),
        Instr::MulL => plain::two(running, BinaryOp::Mul(Arith::Int64)),
        Instr::DivL => plain::two(running, BinaryOp::Div(Arith::Int64)),
        Instr::RemL => plain::two(running, BinaryOp::Rem(Arith::Int64)),
        Instr::AddV => plain::two(running, BinaryOp::Add(Arith::Unsigned64)),
        Instr::SubV => plain::two(running, BinaryOp::Sub(Arith::Unsigned64)),
        Instr::MulV => plain::two(running, BinaryOp::Mul(Arith::Unsigned64)),
        Instr::DivV => plain::two(running, BinaryOp::Div(Arith::Unsigned64)),
        Instr::RemV => plain::two(running, BinaryOp::Rem(Arith::Unsigned64)),
        Instr::NegL => plain::one(running, UnaryOp::Neg(Arith::Int64)),
        Instr::Dup => plain::double(running),
        Instr::LoadFieldAt(f, w, of, n) => fields::load_field_at(running, kind, f, w, of, n),
        Instr::StoreFieldAt(f, w, of, n) => fields::store_field_at(running, kind, f, w, of, n),
        Instr::LoadPartAt(s, f, w, of, n) => fields::load_part_at(running, s, f, w, of, n),
        Instr::StorePartAt(s, f, w, of, n) => fields::store_part_at(running, s, f, w, of, n),
        Instr::Jump(_)
        | Instr::JumpFalse(_)
        | Instr::Turn
        | Instr::Call(_)
        | Instr::Return
        | Instr::ReturnVoid => Leads::Lack,
    }
}
