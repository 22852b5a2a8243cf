//! Code as pieces, before places and numbers are given out.

use stack_code::Instr;

/// A function of a class by its number there, on the state bits from `base` on.
#[derive(Clone, Copy)]
pub struct Key {
    /// The number of the class.
    pub class: u32,
    /// The number of the function in its class.
    pub function: usize,
    /// The first state bit of the class.
    pub base: u32,
}

/// A piece of code.
pub enum Piece {
    /// No code.
    Nothing,
    /// One piece and then another.
    Seq(Box<Piece>, Box<Piece>),
    /// Pieces one after another, however many. Whatever goes over pieces goes over these by a loop,
    /// so its recursion is only as deep as statements and operators nest in the source.
    Block(Vec<Piece>),
    /// An instruction that goes on.
    Plain(Instr),
    /// A call of a function.
    Asks(Key),
    /// The first piece if the number on top isn't 0, otherwise the second.
    Pick(Box<Piece>, Box<Piece>),
    /// The piece if the number on top isn't 0.
    Only(Box<Piece>),
    /// A loop with a test, a body and a step.
    Loop(Box<Piece>, Box<Piece>, Box<Piece>),
    /// A loop with a body and a step, without a test.
    Ever(Box<Piece>, Box<Piece>),
    /// The end of the loop around it.
    Out,
    /// The step of the loop around it.
    Next,
    /// The end of the function, with the operand on top.
    Gives,
    /// The end of the function.
    Leaves,
}

// By hand, so that callers drop by a call.
impl Drop for Piece {
    fn drop(self) {
        match self {
            Piece::Nothing | Piece::Out | Piece::Next | Piece::Gives | Piece::Leaves => {}
            Piece::Seq(first, second) => {}
            Piece::Block(pieces) => {}
            Piece::Plain(instr) => {}
            Piece::Asks(key) => {}
            Piece::Pick(yes, no) => {}
            Piece::Only(yes) => {}
            Piece::Loop(test, body, step) => {}
            Piece::Ever(body, step) => {}
        }
    }
}
