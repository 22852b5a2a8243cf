//! Statements.
ghost use Rattle.std.specs.Prelude.{◌≡◌, ◌∷◌, ◌++◌, [], IfOk, OnOk};
ghost use Rattle.std.specs.Box.{box_value};
ghost use Rattle.ulam_tree.specs.RawViews.{statement_of, boxed_statement, part_alone};
ghost use Rattle.ulam_parse.specs.Statements as spec;
ghost use Rattle.ulam_parse.specs.Statements.{behind_body, body_within};
ghost use Rattle.ulam_parse.specs.Views.{Reads, Finds, body_in};

use crate::for_parts::ForParts;
use crate::halt::Halt;
use crate::head::{for_head, if_head, while_head};
use crate::simple::{declare, maybe, simple};
use crate::symbol::{Starting, Symbol};
use crate::tables::starting_of;
use crate::take::{count_from, mark_at, past, skip};
use crate::tape::Tape;
use feast_base::{NoMemory, Place};
use std::alloc::Global;
use ulam_tree::{Statement, raw_build as build};

/// A statement in a box.
pub fn box_statement(alloc: Global, statement: Statement) -> Result<Box<Statement>, NoMemory>
    ensures { IfOk result (λ b. box_value b ≡ statement) }
{
    Ok(Box::new(alloc, statement)?)
}

/// One more statement.
fn keep(found: &mut Vec<Statement>, statement: Statement) -> Result<(), NoMemory>
    ensures { OnOk result (found.new.items ≡ found.old.items ++ statement ∷ []) }
{
    found.push(statement)?;
    Ok(())
}

/// The `;` after a statement.
#[tactic(auto, unfolding(crate::specs::Statements::end_statement))]
fn end_statement(statement: Statement, tape: &Tape, at: usize) -> Result<(Statement, usize), Halt>
    ensures { Reads statement_of (spec.end_statement (statement_of statement)) tape.now at result }
{
    let next = skip(Symbol::Semi, tape, at)?;
    Ok((statement, next))
}

/// The rest of a `return`.
#[tactic(auto, unfolding(crate::specs::Statements::return_rest))]
fn return_rest(
    alloc: Global,
    place: Place,
    tape: &Tape,
    at: usize,
) -> Result<(Statement, usize), Halt>
    ensures { Reads statement_of (spec.return_rest place) tape.now at result }
{
    let (value, next) = maybe(alloc, tape, at)?;
    end_statement(Statement::Return { place, value }, tape, next)
}

/// A declaration and its `;`.
fn declaration(alloc: Global, tape: &Tape, at: usize) -> Result<(Statement, usize), Halt>
    ensures { Reads statement_of spec.declaration tape.now at result }
{
    let (statement, next) = declare(alloc, tape, at)?;
    end_statement(statement, tape, next)
}

/// An assignment, a count or a call, and its `;`.
fn simple_statement(alloc: Global, tape: &Tape, at: usize) -> Result<(Statement, usize), Halt>
    ensures { Reads statement_of spec.simple_statement tape.now at result }
{
    let (statement, next) = simple(alloc, tape, at)?;
    end_statement(statement, tape, next)
}

/// A statement, read in fewer than `steps` steps.
#[cycle(statement)]
#[tactic(auto, using(crate::proofs::Steps::statement_steps))]
fn statement_in(
    alloc: Global,
    steps: usize,
    tape: &Tape,
    at: usize,
) -> Result<(Statement, usize), Halt>
    ensures { Reads statement_of (spec.statement_in steps) tape.now at result }
{
    if steps == 0 {
        return Err(Halt::OutOfSteps);
    }
    any_statement(alloc, steps - 1, tape, at)
}

/// A statement in a box, read in fewer than `steps` steps.
#[cycle(statement)]
fn boxed_in(
    alloc: Global,
    steps: usize,
    tape: &Tape,
    at: usize,
) -> Result<(Box<Statement>, usize), Halt>
    ensures { Reads boxed_statement (spec.statement_in steps) tape.now at result }
{
    let (statement, next) = statement_in(alloc, steps, tape, at)?;
    Ok((box_statement(alloc, statement)?, next))
}

/// A statement, by its first token.
#[cycle(statement)]
#[tactic(auto, unfolding(crate::specs::Statements::any_statement))]
fn any_statement(
    alloc: Global,
    steps: usize,
    tape: &Tape,
    at: usize,
) -> Result<(Statement, usize), Halt>
    ensures { Reads statement_of (spec.any_statement (spec.statement_in steps)) tape.now at result }
{
    let Some(first) = mark_at(tape, at) else {
        return Err(Halt::Left(0));
    };
    let place = first.place;
    match starting_of(first.symbol) {
        Starting::Block => block_rest(alloc, steps, tape, at + 1),
        Starting::Empty => Ok((Statement::Nothing, at + 1)),
        Starting::If => if_rest(alloc, steps, tape, at + 1),
        Starting::While => while_rest(alloc, steps, tape, at + 1),
        Starting::For => for_rest(alloc, steps, tape, at + 1),
        Starting::Return => return_rest(alloc, place, tape, at + 1),
        Starting::Break => end_statement(Statement::Break { place }, tape, at + 1),
        Starting::Continue => end_statement(Statement::Continue { place }, tape, at + 1),
        Starting::Declare => declaration(alloc, tape, at),
        Starting::Simple => simple_statement(alloc, tape, at),
        Starting::Nothing => Err(Halt::Left(count_from(tape, at))),
    }
}

/// The rest of a block.
#[cycle(statement)]
#[tactic(auto, unfolding(crate::specs::Statements::block_rest))]
fn block_rest(
    alloc: Global,
    steps: usize,
    tape: &Tape,
    at: usize,
) -> Result<(Statement, usize), Halt>
    ensures { Reads statement_of (spec.block_rest (spec.statement_in steps)) tape.now at result }
{
    let mut body = Vec::new(alloc);
    let next = body_in(alloc, steps, &mut body, tape, at)?;
    Ok((build::block(body), next))
}

/// The rest of an `if`.
#[cycle(statement)]
#[tactic(auto, unfolding(crate::specs::Statements::if_rest))]
fn if_rest(alloc: Global, steps: usize, tape: &Tape, at: usize) -> Result<(Statement, usize), Halt>
    ensures { Reads statement_of (spec.if_rest (spec.statement_in steps)) tape.now at result }
{
    let (cond, next) = if_head(alloc, tape, at)?;
    let (yes, next) = boxed_in(alloc, steps, tape, next)?;
    let (no, next) = else_part(alloc, steps, tape, next)?;
    Ok((build::if_so(cond, yes, no), next))
}

/// The `else` of an `if`, if there is one.
#[cycle(statement)]
#[tactic(auto, unfolding(crate::specs::Statements::else_part))]
fn else_part(
    alloc: Global,
    steps: usize,
    tape: &Tape,
    at: usize,
) -> Result<(Option<Box<Statement>>, usize), Halt>
    ensures { Reads part_alone (spec.else_part (spec.statement_in steps)) tape.now at result }
{
    if let Some(next) = past(Symbol::Else, tape, at) {
        let (no, next) = boxed_in(alloc, steps, tape, next)?;
        Ok((Some(no), next))
    } else {
        Ok((None, at))
    }
}

/// The rest of a `while`.
#[cycle(statement)]
#[tactic(auto, unfolding(crate::specs::Statements::while_rest))]
fn while_rest(
    alloc: Global,
    steps: usize,
    tape: &Tape,
    at: usize,
) -> Result<(Statement, usize), Halt>
    ensures { Reads statement_of (spec.while_rest (spec.statement_in steps)) tape.now at result }
{
    let (cond, next) = while_head(alloc, tape, at)?;
    let (body, next) = boxed_in(alloc, steps, tape, next)?;
    Ok((Statement::While { cond, body }, next))
}

/// The rest of a `for`.
#[cycle(statement)]
#[tactic(auto, unfolding(crate::specs::Statements::for_rest))]
fn for_rest(alloc: Global, steps: usize, tape: &Tape, at: usize) -> Result<(Statement, usize), Halt>
    ensures { Reads statement_of (spec.for_rest (spec.statement_in steps)) tape.now at result }
{
    let (head, next) = for_head(alloc, tape, at)?;
    let (body, next) = boxed_in(alloc, steps, tape, next)?;
    let ForParts { first, cond, step } = head;
    Ok((build::for_all(first, cond, step, body), next))
}

/// Statements, appended to `found`, and the closing brace.
#[cycle(statement)]
fn body_in(
    alloc: Global,
    steps: usize,
    found: &mut Vec<Statement>,
    tape: &Tape,
    at: usize,
) -> Result<usize, Halt>
    ensures { Finds (body_in found.new) (behind_body (body_in found.old) (body_within steps)) tape.now at result }
{
    let mut next = at;
    'turns: for _turn in 0..count_from(tape, at) + 1 {
        if let Some(behind) = past(Symbol::CloseBrace, tape, next) {
            return Ok(behind);
        }
        let (statement, behind) = statement_in(alloc, steps, tape, next)?;
        keep(found, statement)?;
        next = behind;
    }
    Err(Halt::OutOfSteps)
}

/// The statements of a function and the closing brace.
pub fn whole_body(alloc: Global, tape: &Tape, at: usize) -> Result<(Vec<Statement>, usize), Halt>
    ensures { Reads body_in spec.whole_body tape.now at result }
{
    let mut body = Vec::new(alloc);
    let next = body_in(alloc, count_from(tape, at) + 1, &mut body, tape, at)?;
    Ok((body, next))
}
