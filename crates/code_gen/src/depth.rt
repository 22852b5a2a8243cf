//! How many operands there are at the places of a piece.

ghost use Rattle.std.specs.Prelude.{◌≡◌, ◌≤◌, ◌+◌, ◌-◌, ℕ, Option, Some, None, IfSome, IfNone, nat_le, true};
ghost use Rattle.stack_code.specs.Sorts.{sort};
ghost use Rattle.stack_code.specs.Valid.{is_nothing};
ghost use Rattle.code_gen.specs.Drafts.{Drafts, end_by};
ghost use Rattle.code_gen.specs.Depths.{takes, makes, depth, answer_count, at_most, and_depth};
ghost use Rattle.code_gen.specs.Pieces.{asks, only};
ghost use Rattle.code_gen.specs.Views.{piece_of, pieces_of, key_of, IsBelow};
ghost use Rattle.stack_code.specs.declared.limits.TheConstants.{MOST_OPERANDS};

use crate::piece::{Key, Piece};
use crate::source::{Head, Source};
use stack_code::{Answer, Instr, MOST_OPERANDS};

/// How many operands a plain instruction leaves of d.
fn after_instr(instr: Instr, d: u32) -> u32
    requires { d ≤ MOST_OPERANDS }
    ensures value { result ≡ d + makes (sort instr) - takes (sort instr) }
    ensures bound { result ≤ MOST_OPERANDS + 1 }
{
    match instr {
        Instr::NegI
        | Instr::NegL
        | Instr::NotW(_)
        | Instr::Fit(_, _)
        | Instr::NotB
        | Instr::IsLive
        | Instr::IsEmpty
        | Instr::RandCreate
        | Instr::RandOneIn
        | Instr::LoadSite
        | Instr::IsKind(_)
        | Instr::LoadFieldAt(_, _, _, _)
        | Instr::LoadPartAt(_, _, _, _, _) => d,
        Instr::PushNum(_)
        | Instr::PushAtom(_)
        | Instr::LoadLocal(_)
        | Instr::LoadField(_, _, _)
        | Instr::LoadPart(_, _, _, _)
        | Instr::LoadSelf
        | Instr::Dup
        | Instr::Jump(_)
        | Instr::JumpFalse(_)
        | Instr::Turn
        | Instr::Call(_)
        | Instr::Return
        | Instr::ReturnVoid => d + 1,
        Instr::StoreSite
        | Instr::Swap
        | Instr::StoreFieldAt(_, _, _, _)
        | Instr::StorePartAt(_, _, _, _, _) => d.saturating_sub(2),
        _ => d.saturating_sub(1), // an operator on two, and what stores or drops one
    }
}

/// The number of operands, if a place may have this many.
fn few(d: u32) -> Option<u32>
    ensures value { result ≡ at_most d (Some d) }
    ensures bound { IsBelow MOST_OPERANDS result }
{
    if d <= MOST_OPERANDS { Some(d) } else { None }
}

/// How many operands a call leaves of d.
fn after_call(head: Head, d: u32) -> u32
    requires { d ≤ MOST_OPERANDS }
    ensures value { result ≡ d - head.params + answer_count (is_nothing head.answer) }
    ensures bound { result ≤ MOST_OPERANDS + 1 }
{
    let left = d.saturating_sub(head.params);
    match head.answer {
        Answer::Nothing => left,
        Answer::Number | Answer::Atom => left + 1,
    }
}

/// The number of operands without the one on top, if a place may have this many.
fn depth_below(d: u32) -> Option<u32>
    ensures value { result ≡ at_most d (Some (d - 1)) }
    ensures bound { IsBelow MOST_OPERANDS result }
{
    let below = few(d)?;
    Some(below.saturating_sub(1))
}

/// How many operands there are after a plain instruction.
fn plain_depth(instr: Instr, d: u32) -> Option<u32>
    ensures value { result ≡ at_most d (Some (d + makes (sort instr) - takes (sort instr))) }
    ensures bound { IsBelow (MOST_OPERANDS + 1) result }
{
    let d = few(d)?;
    Some(after_instr(instr, d))
}

/// The same for a call.
fn call_depth<S: Source>(source: &S, key: Key, d: u32) -> Option<u32>
    ensures value { result ≡ depth (S.drafts source.now) (asks (key_of key)) d }
    ensures bound { IsBelow (MOST_OPERANDS + 1) result }
{
    let d = few(d)?;
    Some(after_call(source.head(key), d))
}

/// The same for what doesn't go on.
fn last_depth(d: u32) -> Option<u32>
    ensures value { result ≡ at_most d (Some 0) }
    ensures bound { IsBelow (MOST_OPERANDS + 1) result }
{
    few(d)?;
    Some(0)
}

/// How many operands there are after a piece that begins with d of them, or 0 if it doesn't go on.
/// None if some place of it has more than 512.
#[cycle(depth)]
pub fn depth<S: Source>(source: &S, piece: &Piece, d: u32) -> Option<u32>
    requires { d ≤ MOST_OPERANDS + 1 }
    ensures value { result ≡ depth (S.drafts source.now) (piece_of piece.now) d }
    ensures bound { IsBelow (MOST_OPERANDS + 1) result }
{
    match piece {
        Piece::Nothing => Some(d),
        Piece::Seq(a, b) => {
            let m = depth(source, a, d)?;
            depth(source, b, m)
        }
        Piece::Block(list) => depth_of_all(source, list.as_slice(), d),
        Piece::Plain(instr) => plain_depth(*instr, d),
        Piece::Asks(key) => call_depth(source, *key, d),
        Piece::Pick(a, b) => {
            let below = depth_below(d)?;
            low_depth(source, a, below)?;
            depth(source, b, below)
        }
        Piece::Only(a) => only_depth(source, a, d),
        Piece::Loop(t, a, b) => {
            low_depth(source, t, d)?;
            depth(source, a, 0)?;
            depth(source, b, 0)?;
            Some(0)
        }
        Piece::Ever(a, b) => {
            depth(source, a, d)?;
            depth(source, b, 0)?;
            Some(0)
        }
        Piece::Out | Piece::Next | Piece::Gives | Piece::Leaves => last_depth(d),
    }
}

/// The same for a piece after which a place may have as many.
#[cycle(depth)]
fn low_depth<S: Source>(source: &S, a: &Piece, d: u32) -> Option<u32>
    requires { d ≤ MOST_OPERANDS + 1 }
    ensures some { IfSome result (λ m. depth (S.drafts source.now) (piece_of a.now) d ≡ Some m) }
    ensures low { IfSome result (λ m. nat_le m MOST_OPERANDS ≡ true) }
    ensures none { (rest : Option ℕ) → IfNone result (and_depth (depth (S.drafts source.now) (piece_of a.now) d) (λ m. at_most m rest) ≡ None) }
{
    let left = depth(source, a, d)?;
    few(left)
}

/// The same for a piece that may be left out.
#[cycle(depth)]
fn only_depth<S: Source>(source: &S, a: &Piece, d: u32) -> Option<u32>
    requires { d ≤ MOST_OPERANDS + 1 }
    ensures value { result ≡ depth (S.drafts source.now) (only (piece_of a.now)) d }
    ensures bound { IsBelow (MOST_OPERANDS + 1) result }
{
    let below = depth_below(d)?;
    depth(source, a, below)?;
    Some(below)
}

/// The same for pieces one after another.
#[cycle(depth)]
fn depth_of_all<S: Source>(source: &S, list: &[Piece], d: u32) -> Option<u32>
    requires { d ≤ MOST_OPERANDS + 1 }
    ensures value { result ≡ depth (S.drafts source.now) (pieces_of list.now) d }
    ensures bound { IsBelow (MOST_OPERANDS + 1) result }
{
    let mut left = d;
    for piece in list {
        left = depth(source, piece, left)?;
    }
    Some(left)
}

/// The same for the end of a function.
pub fn end_depth(answer: Answer, d: u32) -> Option<u32>
    requires { d ≤ MOST_OPERANDS + 1 }
    ensures { (g : Drafts) (blank : ℕ) → result ≡ depth g (end_by answer blank) d }
{
    few(d)?;
    match answer {
        Answer::Nothing => Some(0),
        Answer::Number | Answer::Atom => {
            few(d + 1)?;
            Some(0)
        }
    }
}
