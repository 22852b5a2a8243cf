//! The classes of a program, and the setting of the parts of a function's body.
ghost use Rattle.code_gen.specs.Sized.{program_view, IsSized};

use crate::piece::Key;
use atom_layout::Layout;
use sat_math::NumType;
use ulam_tree::resolved::{Built, Param, Ty};
use ulam_tree::typed::{Statement, Typed};

/// The classes of a program with their layout.
#[derive(Drop)]
pub struct Classes<'a> {
    pub typed: &'a Typed,
    pub layout: &'a Layout,
    ghost sized: { IsSized (program_view typed.now layout.now) },
}

/// A data member: its type, and its length, which is 0 if it is not an array.
#[derive(Clone, Copy)]
pub struct Field {
    pub ty: Ty,
    pub length: u32,
}

/// A function of a class.
#[derive(Clone, Copy)]
pub struct Function<'a> {
    pub name: &'a [u8],
    pub params: &'a [Param],
    pub result: Ty,
    pub body: &'a [Statement],
}

/// The setting of a statement: the first bit of the class whose function this is, the types of its
/// locals by their slots, and that of its result.
#[derive(Drop)]
pub struct Scene<'a> {
    pub classes: &'a Classes<'a>,
    pub base: u32,
    pub slots: &'a [Ty],
    pub result: Ty,
}

/// Numbers in an atom's state: the first bit, the type of each, and how many there are, which is 0
/// if it is not an array.
#[derive(Clone, Copy)]
pub struct Span {
    pub first: u32,
    pub num: NumType,
    pub length: u32,
}

/// What a path names.
#[derive(Clone, Copy)]
pub enum Spot {
    /// `self`.
    Own,
    /// A local or parameter.
    Local { slot: u32 },
    /// A number, or an array of numbers, of the acting element.
    Member { span: Span },
    /// The same for the atom in a local.
    Part { slot: u32, span: Span },
    /// The event's window.
    Window,
    /// A constant.
    Constant { value: i128 },
    /// Nothing that has a value or that square brackets may follow.
    Nothing,
}

/// What a path calls.
#[derive(Clone, Copy)]
pub enum Callee {
    /// A function of a class.
    Called { key: Key },
    /// A function of the window or of the random stream.
    Built { call: Built },
    /// Nothing.
    Nothing,
}
