//! Pieces from pieces.

ghost use Rattle.std.specs.Prelude.{◌≡◌, IfOk};
ghost use Rattle.std.specs.Box.{box_value};
ghost use Rattle.code_gen.specs.Pieces.{seq, plain, pick, only, loop, ever};
ghost use Rattle.code_gen.specs.Views.{piece_of};

use crate::piece::Piece;
use feast_base::NoMemory;
use stack_code::Instr;
use std::alloc::Global;

/// A piece in a box.
fn box_piece(alloc: Global, a: Piece) -> Result<Box<Piece>, NoMemory>
    ensures { IfOk result (λ b. box_value b ≡ a) }
{
    Ok(Box::new(alloc, a)?)
}

/// One piece and then another. `NoMemory` if they can't be kept, here and in the calls that follow.
pub fn seq(alloc: Global, a: Piece, b: Piece) -> Result<Piece, NoMemory>
    ensures { IfOk result (λ q. piece_of q ≡ seq (piece_of a) (piece_of b)) }
{
    Ok(Piece::Seq(box_piece(alloc, a)?, box_piece(alloc, b)?))
}

/// Three pieces one after another.
pub(crate) fn three(alloc: Global, a: Piece, b: Piece, c: Piece) -> Result<Piece, NoMemory>
    ensures { IfOk result (λ q. piece_of q ≡ seq (piece_of a) (seq (piece_of b) (piece_of c))) }
{
    let rest = seq(alloc, b, c)?;
    seq(alloc, a, rest)
}

/// A piece and then an instruction.
pub fn then_instr(alloc: Global, a: Piece, instr: Instr) -> Result<Piece, NoMemory>
    ensures { IfOk result (λ q. piece_of q ≡ seq (piece_of a) (plain instr)) }
{
    seq(alloc, a, Piece::Plain(instr))
}

/// The first piece if the number on top isn't 0, otherwise the second.
pub fn pick(alloc: Global, a: Piece, b: Piece) -> Result<Piece, NoMemory>
    ensures { IfOk result (λ q. piece_of q ≡ pick (piece_of a) (piece_of b)) }
{
    Ok(Piece::Pick(box_piece(alloc, a)?, box_piece(alloc, b)?))
}

/// The piece if the number on top isn't 0.
pub fn only(alloc: Global, a: Piece) -> Result<Piece, NoMemory>
    ensures { IfOk result (λ q. piece_of q ≡ only (piece_of a)) }
{
    Ok(Piece::Only(box_piece(alloc, a)?))
}

/// A loop with a test, a body and a step.
pub fn test_loop(alloc: Global, t: Piece, a: Piece, b: Piece) -> Result<Piece, NoMemory>
    ensures { IfOk result (λ q. piece_of q ≡ loop (piece_of t) (piece_of a) (piece_of b)) }
{
    Ok(Piece::Loop(
        box_piece(alloc, t)?,
        box_piece(alloc, a)?,
        box_piece(alloc, b)?,
    ))
}

/// A loop with a body and a step, without a test.
pub fn ever(alloc: Global, a: Piece, b: Piece) -> Result<Piece, NoMemory>
    ensures { IfOk result (λ q. piece_of q ≡ ever (piece_of a) (piece_of b)) }
{
    Ok(Piece::Ever(box_piece(alloc, a)?, box_piece(alloc, b)?))
}
