//! The pieces of statements.
ghost use Rattle.std.specs.Prelude.{◌≡◌, ◌++◌, ◌∷◌, [], IfOk, OnOk};
ghost use Rattle.ulam_tree.specs.TypedViews.{typed_statement, typed_body, typed_part};
ghost use Rattle.code_gen.specs.Clipped.{choice_of};
ghost use Rattle.code_gen.specs.Made.{Makes};
ghost use Rattle.code_gen.specs.Scheme.{statement_piece, part_piece, body_piece};
ghost use Rattle.code_gen.specs.Seen.{scene_of};
ghost use Rattle.code_gen.specs.Views.{piece_of};

use crate::classes::Scene;
use crate::expr::expr;
use crate::make;
use crate::parts::{self, around, assign_value, count, declare, does, give_back};
use crate::piece::Piece;
use feast_base::NoMemory;
use std::alloc::Global;
use ulam_tree::typed::Statement;

/// A statement.
#[cycle(statement)]
fn statement(alloc: Global, scene: &Scene, one: &Statement) -> Result<Piece, NoMemory>
    ensures { Makes result (statement_piece (scene_of scene.now) (typed_statement one.now)) }
{
    match one {
        Statement::Block { body: list } => body(alloc, scene, list.as_slice()),
        Statement::Nothing => Ok(Piece::Nothing),
        Statement::If { cond, yes, no } => {
            let asked = parts::cond(alloc, scene, cond)?;
            let yes = statement(alloc, scene, yes)?;
            let choice = choice(alloc, scene, no, yes)?;
            make::seq(alloc, asked, choice)
        }
        Statement::While { cond, body } => {
            let test = expr(alloc, scene, cond)?;
            let body = statement(alloc, scene, body)?;
            make::test_loop(alloc, test, body, Piece::Nothing)
        }
        Statement::For {
            first,
            cond,
            step,
            body,
        } => {
            let first = part(alloc, scene, first)?;
            let step = part(alloc, scene, step)?;
            let body = statement(alloc, scene, body)?;
            let rounds = around(alloc, scene, cond, body, step)?;
            make::seq(alloc, first, rounds)
        }
        Statement::Return { value, .. } => give_back(alloc, scene, value),
        Statement::Break { .. } => Ok(Piece::Out),
        Statement::Continue { .. } => Ok(Piece::Next),
        Statement::Declare {
            of,
            slot,
            value,
            ..
        } => declare(alloc, scene, of.ty, *slot, value),
        Statement::Assign { left, op, value } => assign_value(alloc, scene, left, *op, value),
        Statement::Count { left, up } => count(alloc, scene, left, *up),
        Statement::Call { call } => does(alloc, scene, &call.path, call.args.as_slice()),
    }
}

/// The parts of an `if` after its condition, of which the first one is made.
#[cycle(statement)]
fn choice(
    alloc: Global,
    scene: &Scene,
    no: &Option<Box<Statement>>,
    yes: Piece,
) -> Result<Piece, NoMemory>
    ensures { IfOk result (λ q. piece_of q ≡ choice_of (scene_of scene.now) (piece_of yes) (typed_part no.now)) }
{
    match no {
        None => make::only(alloc, yes),
        Some(no) => {
            let no = statement(alloc, scene, no)?;
            make::pick(alloc, yes, no)
        }
    }
}

/// An optional statement.
#[cycle(statement)]
fn part(alloc: Global, scene: &Scene, one: &Option<Box<Statement>>) -> Result<Piece, NoMemory>
    ensures { Makes result (part_piece (scene_of scene.now) (typed_part one.now)) }
{
    match one {
        None => Ok(Piece::Nothing),
        Some(one) => statement(alloc, scene, one),
    }
}

/// One more piece.
fn keep(pieces: &mut Vec<Piece>, piece: Piece) -> Result<(), NoMemory>
    ensures { OnOk result (pieces.new.items ≡ pieces.old.items ++ piece ∷ []) }
{
    pieces.push(piece)?;
    Ok(())
}

/// Statements one after another.
#[cycle(statement)]
pub fn body(alloc: Global, scene: &Scene, list: &[Statement]) -> Result<Piece, NoMemory>
    ensures { Makes result (body_piece (scene_of scene.now) (typed_body list.now)) }
{
    let mut pieces = Vec::new(alloc);
    for one in list {
        let piece = statement(alloc, scene, one)?;
        keep(&mut pieces, piece)?;
    }
    Ok(Piece::Block(pieces))
}
