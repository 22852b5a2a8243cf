//! How many instructions a piece has.

ghost use Rattle.std.specs.Prelude.{◌≡◌, ◌≤◌, ◌+◌, ℕ, min};
ghost use Rattle.code_gen.specs.Pieces.{size};
ghost use Rattle.code_gen.specs.Drafts.{end_by};
ghost use Rattle.code_gen.specs.Views.{piece_of, pieces_of};
ghost use Rattle.stack_code.specs.declared.limits.TheConstants.{MOST_INSTRS};

use crate::piece::Piece;
use stack_code::{Answer, MOST_INSTRS};

/// The sum of two sizes, up to a limit: 65,537 stands for everything above the most.
pub fn capped_sum(a: u32, b: u32) -> u32
    requires left { a ≤ MOST_INSTRS + 1 }
    requires right { b ≤ MOST_INSTRS + 1 }
    ensures { result ≡ min (a + b) (MOST_INSTRS + 1) }
{
    let sum = a + b;
    if sum > MOST_INSTRS {
        MOST_INSTRS + 1
    } else {
        sum
    }
}

/// How many instructions a piece has, if they are no more than the most, otherwise one more than
/// that.
#[cycle(size)]
pub fn size_of(piece: &Piece) -> u32
    ensures { result ≡ min (size (piece_of piece.now)) (MOST_INSTRS + 1) }
{
    match piece {
        Piece::Nothing => 0,
        Piece::Seq(a, b) => capped_sum(size_of(a), size_of(b)),
        Piece::Block(list) => size_of_all(list.as_slice()),
        Piece::Pick(a, b) => capped_sum(capped_sum(1, size_of(a)), capped_sum(1, size_of(b))),
        Piece::Only(a) => capped_sum(1, size_of(a)),
        Piece::Loop(t, a, b) => capped_sum(
            capped_sum(size_of(t), 1),
            capped_sum(size_of(a), capped_sum(size_of(b), 2)),
        ),
        Piece::Ever(a, b) => capped_sum(size_of(a), capped_sum(size_of(b), 2)),
        Piece::Plain(_)
        | Piece::Asks(_)
        | Piece::Out
        | Piece::Next
        | Piece::Gives
        | Piece::Leaves => 1,
    }
}

/// The same for pieces one after another.
#[cycle(size)]
fn size_of_all(list: &[Piece]) -> u32
    ensures { result ≡ min (size (pieces_of list.now)) (MOST_INSTRS + 1) }
{
    let mut sum: u32 = 0;
    for piece in list {
        sum = capped_sum(sum, size_of(piece));
    }
    sum
}

/// How many instructions the end of a function has.
pub fn end_size(answer: Answer) -> u32
    ensures value { (blank : ℕ) → result ≡ size (end_by answer blank) }
    ensures bound { result ≤ 2 }
{
    match answer {
        Answer::Nothing => 1,
        Answer::Number | Answer::Atom => 2,
    }
}
