//! The heads of `if`, `while` and `for`.
ghost use Rattle.ulam_tree.specs.RawViews.{expr_of, cond_of, part_alone};
ghost use Rattle.ulam_parse.specs.Heads.{head_of};
ghost use Rattle.ulam_parse.specs.Statements as spec;
ghost use Rattle.ulam_parse.specs.Views.{Reads};

use crate::expr::expr;
use crate::for_parts::ForParts;
use crate::halt::Halt;
use crate::simple::{cond, declare, maybe, simple};
use crate::statement::box_statement;
use crate::symbol::Symbol;
use crate::take::{sees, skip};
use crate::tape::Tape;
use std::alloc::Global;
use ulam_tree::{Cond, Expr, Statement};

/// What a `for` does first.
#[tactic(auto, unfolding(crate::specs::Statements::first_part))]
fn first_part(
    alloc: Global,
    tape: &Tape,
    at: usize,
) -> Result<(Option<Box<Statement>>, usize), Halt>
    ensures { Reads part_alone spec.first_part tape.now at result }
{
    if sees(Symbol::Semi, tape, at) {
        Ok((None, at))
    } else if sees(Symbol::TypeName, tape, at) {
        let (statement, next) = declare(alloc, tape, at)?;
        Ok((Some(box_statement(alloc, statement)?), next))
    } else {
        let (statement, next) = simple(alloc, tape, at)?;
        Ok((Some(box_statement(alloc, statement)?), next))
    }
}

/// What a `for` does after each turn.
#[tactic(auto, unfolding(crate::specs::Statements::step_part))]
fn step_part(alloc: Global, tape: &Tape, at: usize) -> Result<(Option<Box<Statement>>, usize), Halt>
    ensures { Reads part_alone spec.step_part tape.now at result }
{
    if sees(Symbol::CloseParen, tape, at) {
        return Ok((None, at));
    }
    let (step, next) = simple(alloc, tape, at)?;
    Ok((Some(box_statement(alloc, step)?), next))
}

/// The parts of a `for` that are in its brackets.
#[tactic(auto, unfolding(crate::specs::Statements::for_head))]
pub fn for_head(alloc: Global, tape: &Tape, at: usize) -> Result<(ForParts, usize), Halt>
    ensures { Reads head_of spec.for_head tape.now at result }
{
    let next = skip(Symbol::OpenParen, tape, at)?;
    let (first, next) = first_part(alloc, tape, next)?;
    let next = skip(Symbol::Semi, tape, next)?;
    let (cond, next) = maybe(alloc, tape, next)?;
    let next = skip(Symbol::Semi, tape, next)?;
    let (step, next) = step_part(alloc, tape, next)?;
    let next = skip(Symbol::CloseParen, tape, next)?;
    Ok((ForParts { first, cond, step }, next))
}

/// A condition in brackets.
#[tactic(auto, unfolding(crate::specs::Statements::if_head))]
pub fn if_head(alloc: Global, tape: &Tape, at: usize) -> Result<(Cond, usize), Halt>
    ensures { Reads cond_of spec.if_head tape.now at result }
{
    let next = skip(Symbol::OpenParen, tape, at)?;
    let (cond, next) = cond(alloc, tape, next)?;
    let next = skip(Symbol::CloseParen, tape, next)?;
    Ok((cond, next))
}

/// An expression in brackets.
#[tactic(auto, unfolding(crate::specs::Statements::while_head))]
pub fn while_head(alloc: Global, tape: &Tape, at: usize) -> Result<(Expr, usize), Halt>
    ensures { Reads expr_of spec.while_head tape.now at result }
{
    let next = skip(Symbol::OpenParen, tape, at)?;
    let (cond, next) = expr(alloc, 1, tape, next)?;
    let next = skip(Symbol::CloseParen, tape, next)?;
    Ok((cond, next))
}
