//! The shapes of instructions, and the table that gives each instruction its shape.

ghost use Rattle.std.specs.Prelude.{◌≡◌};
ghost use Rattle.stack_code.specs.Sorts.{num_type, sort};
ghost use Rattle.stack_code.specs.Shapes.{sort_of};

use crate::instr::Instr;
use crate::operators::{BinaryOp, UnaryOp};
use sat_math::{Arith, CompareOp, Kind, NumType};

/// What an instruction does, with the same word for all instructions that differ only in their
/// operator. A field is given by its first bit and its type, an array also by its length; a slot
/// comes before them. In contracts a shape stands for its sort, which has a function in place of
/// each operator.
#[derive(Clone, Copy)]
pub enum Shape {
    /// Pushes the number, from -2^63 to 2^64 - 1.
    GiveNumber(i128),
    /// Pushes the atom of this type with state 0.
    GiveAtom(u16),
    /// Replaces the number on top.
    One(UnaryOp),
    /// Replaces the two numbers on top.
    Two(BinaryOp),
    /// Pushes the value of the slot.
    Load(u8),
    /// Pops an operand into the slot.
    Store(u8),
    /// Pops an operand.
    Drop,
    /// Pushes a field of the atom at site 0.
    Field(u8, NumType),
    /// Pops a number into a field of the atom at site 0.
    SetField(u8, NumType),
    /// Pushes a field of the atom in the slot.
    Part(u8, u8, NumType),
    /// Pops a number into a field of the atom in the slot.
    SetPart(u8, u8, NumType),
    /// Pushes the atom at site 0.
    Own,
    /// Pops a site and pushes its atom.
    Site,
    /// Pops an atom, then a site, and puts the atom there.
    SetSite,
    /// Pops two sites and swaps their atoms.
    Exchange,
    /// Pops a site and pushes whether it is live.
    AskLive,
    /// Pops a site and pushes whether its atom has type 0.
    AskEmpty,
    /// Pops a bound and pushes the next random word modulo it.
    Draw,
    /// Pops a bound and pushes whether the next random word modulo it is 0.
    DrawOneIn,
    /// Pops an atom and pushes whether it has this type.
    Same(u16),
    /// Pops a number and pushes it twice.
    Double,
    /// Pops an index and pushes that element of an array of the atom at site 0.
    FieldAt(u8, NumType, u8),
    /// Pops a number, then an index, and writes that element of an array of the atom at site 0.
    SetFieldAt(u8, NumType, u8),
    /// Pops an index and pushes that element of an array of the atom in the slot.
    PartAt(u8, u8, NumType, u8),
    /// Pops a number, then an index, and writes that element of an array of the atom in the slot.
    SetPartAt(u8, u8, NumType, u8),
    /// Continues at the place.
    Goto(u32),
    /// Pops a number and continues at the place if it is 0.
    GotoFalse(u32),
    /// Uses up a turn.
    Take,
    /// Calls the function.
    Enter(u32),
    /// Pops an operand and returns it.
    GiveBack,
    /// Returns nothing.
    Leave,
}

/// A type of numbers.
#[inline(always)]
fn num_type(kind: Kind, width: u8) -> NumType
    ensures { result ≡ num_type kind width }
{
    NumType { kind, width }
}

impl Instr {
    /// The shape of the instruction.
    #[inline(always)]
    pub(crate) fn shape(&self) -> Shape
        ensures { sort_of result ≡ sort self.now }
    {
        match *self {
            Instr::PushNum(v) => Shape::GiveNumber(v),
            Instr::PushAtom(k) => Shape::GiveAtom(k),
            Instr::LoadLocal(s) => Shape::Load(s),
            Instr::StoreLocal(s) => Shape::Store(s),
            Instr::Pop => Shape::Drop,
            Instr::LoadField(f, w, kind) => Shape::Field(f, num_type(kind, w)),
            Instr::StoreField(f, w, kind) => Shape::SetField(f, num_type(kind, w)),
            Instr::LoadPart(s, f, w, kind) => Shape::Part(s, f, num_type(kind, w)),
            Instr::StorePart(s, f, w, kind) => Shape::SetPart(s, f, num_type(kind, w)),
            Instr::LoadSelf => Shape::Own,
            Instr::LoadSite => Shape::Site,
            Instr::StoreSite => Shape::SetSite,
            Instr::Swap => Shape::Exchange,
            Instr::IsLive => Shape::AskLive,
            Instr::IsEmpty => Shape::AskEmpty,
            Instr::RandCreate => Shape::Draw,
            Instr::RandOneIn => Shape::DrawOneIn,
            Instr::IsKind(k) => Shape::Same(k),
            Instr::AddI => Shape::Two(BinaryOp::Add(Arith::Int32)),
            Instr::SubI => Shape::Two(BinaryOp::Sub(Arith::Int32)),
            Instr::MulI => Shape::Two(BinaryOp::Mul(Arith::Int32)),
            Instr::DivI => Shape::Two(BinaryOp::Div(Arith::Int32)),
            Instr::RemI => Shape::Two(BinaryOp::Rem(Arith::Int32)),
            Instr::AddU => Shape::Two(BinaryOp::Add(Arith::Unsigned32)),
            Instr::SubU => Shape::Two(BinaryOp::Sub(Arith::Unsigned32)),
            Instr::MulU => Shape::Two(BinaryOp::Mul(Arith::Unsigned32)),
            Instr::DivU => Shape::Two(BinaryOp::Div(Arith::Unsigned32)),
            Instr::RemU => Shape::Two(BinaryOp::Rem(Arith::Unsigned32)),
            Instr::NegI => Shape::One(UnaryOp::Neg(Arith::Int32)),
            Instr::And => Shape::Two(BinaryOp::And),
            Instr::Or => Shape::Two(BinaryOp::Or),
            Instr::Xor => Shape::Two(BinaryOp::Xor),
            Instr::NotW(w) => Shape::One(UnaryOp::Flip(w)),
            Instr::Shl(w) => Shape::Two(BinaryOp::Shl(w)),
            Instr::Shr => Shape::Two(BinaryOp::Shr),
            Instr::Fit(kind, w) => Shape::One(UnaryOp::Fit(num_type(kind, w))),
            Instr::NotB => Shape::One(UnaryOp::Not),
            Instr::Eq => Shape::Two(BinaryOp::Test(CompareOp::Eq)),
            Instr::Ne => Shape::Two(BinaryOp::Test(CompareOp::Ne)),
            Instr::Lt => Shape::Two(BinaryOp::Test(CompareOp::Lt)),
            Instr::Le => Shape::Two(BinaryOp::Test(CompareOp::Le)),
            Instr::Gt => Shape::Two(BinaryOp::Test(CompareOp::Gt)),
            Instr::Ge => Shape::Two(BinaryOp::Test(CompareOp::Ge)),
            Instr::Jump(p) => Shape::Goto(p),
            Instr::JumpFalse(p) => Shape::GotoFalse(p),
            Instr::Turn => Shape::Take,
            Instr::Call(f) => Shape::Enter(f),
            Instr::Return => Shape::GiveBack,
            Instr::ReturnVoid => Shape::Leave,
            Instr::AddL => Shape::Two(BinaryOp::Add(Arith::Int64)),
            Instr::SubL => Shape::Two(BinaryOp::Sub(Arith::Int64)),
            Instr::MulL => Shape::Two(BinaryOp::Mul(Arith::Int64)),
            Instr::DivL => Shape::Two(BinaryOp::Div(Arith::Int64)),
            Instr::RemL => Shape::Two(BinaryOp::Rem(Arith::Int64)),
            Instr::AddV => Shape::Two(BinaryOp::Add(Arith::Unsigned64)),
            Instr::SubV => Shape::Two(BinaryOp::Sub(Arith::Unsigned64)),
            Instr::MulV => Shape::Two(BinaryOp::Mul(Arith::Unsigned64)),
            Instr::DivV => Shape::Two(BinaryOp::Div(Arith::Unsigned64)),
            Instr::RemV => Shape::Two(BinaryOp::Rem(Arith::Unsigned64)),
            Instr::NegL => Shape::One(UnaryOp::Neg(Arith::Int64)),
            Instr::Dup => Shape::Double,
            Instr::LoadFieldAt(f, w, kind, n) => Shape::FieldAt(f, num_type(kind, w), n),
            Instr::StoreFieldAt(f, w, kind, n) => Shape::SetFieldAt(f, num_type(kind, w), n),
            Instr::LoadPartAt(s, f, w, kind, n) => Shape::PartAt(s, f, num_type(kind, w), n),
            Instr::StorePartAt(s, f, w, kind, n) => Shape::SetPartAt(s, f, num_type(kind, w), n),
        }
    }
}
