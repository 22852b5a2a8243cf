//! Conditions, declarations, assignments, counts and calls, and the heads of statements.
ghost use Rattle.std.specs.Prelude.{option_map};
ghost use Rattle.ulam_tree.specs.RawViews.{path_of, expr_of, boxed_expr, cond_of, left_of, statement_of};
ghost use Rattle.ulam_parse.specs.Statements as spec;
ghost use Rattle.ulam_parse.specs.Views.{Reads};

use crate::expr::{args, box_expr, expr};
use crate::halt::Halt;
use crate::symbol::{Assigning, Symbol};
use crate::tables::assigning_of;
use crate::take::{count_from, expect, mark_at, past, sees, sees_second, skip, word};
use crate::tape::Tape;
use crate::types::{path, type_ref};
use std::alloc::Global;
use ulam_tree::{Call, Cond, Expr, Left, Path, Statement};

/// What an `if` asks.
#[tactic(auto, unfolding(crate::specs::Statements::cond))]
pub fn cond(alloc: Global, tape: &Tape, at: usize) -> Result<(Cond, usize), Halt>
    ensures { Reads cond_of spec.cond tape.now at result }
{
    if sees(Symbol::Name, tape, at) && sees_second(Symbol::As, tape, at) {
        let (name, next) = expect(Symbol::Name, tape, at)?;
        let next = skip(Symbol::As, tape, next)?;
        let (class, next) = expect(Symbol::TypeName, tape, next)?;
        let word_seen = word(alloc, tape, name)?;
        let class = word(alloc, tape, class)?;
        Ok((
            Cond::Seen {
                word: word_seen,
                class,
            },
            next,
        ))
    } else {
        let (value, next) = expr(alloc, 1, tape, at)?;
        Ok((Cond::Test { value }, next))
    }
}

/// The index in square brackets after a path, if there is one.
#[tactic(auto, unfolding(crate::specs::Statements::index_in))]
fn index_in(alloc: Global, tape: &Tape, at: usize) -> Result<(Option<Box<Expr>>, usize), Halt>
    ensures { Reads (option_map boxed_expr) spec.index_in tape.now at result }
{
    if let Some(next) = past(Symbol::OpenBracket, tape, at) {
        let (value, next) = expr(alloc, 1, tape, next)?;
        let value = box_expr(alloc, value)?;
        let next = skip(Symbol::CloseBracket, tape, next)?;
        Ok((Some(value), next))
    } else {
        Ok((None, at))
    }
}

/// What is assigned to.
#[tactic(auto, unfolding(crate::specs::Statements::left_side))]
fn left_side(alloc: Global, tape: &Tape, at: usize) -> Result<(Left, usize), Halt>
    ensures { Reads left_of spec.left_side tape.now at result }
{
    let (path, next) = path(alloc, tape, at)?;
    let (index, next) = index_in(alloc, tape, next)?;
    Ok((Left { path, index }, next))
}

/// An expression, unless `;` comes first.
#[tactic(auto, unfolding(crate::specs::Statements::maybe))]
pub fn maybe(alloc: Global, tape: &Tape, at: usize) -> Result<(Option<Expr>, usize), Halt>
    ensures { Reads (option_map expr_of) spec.maybe tape.now at result }
{
    if sees(Symbol::Semi, tape, at) {
        return Ok((None, at));
    }
    let (value, next) = expr(alloc, 1, tape, at)?;
    Ok((Some(value), next))
}

/// The initial value of a local, if there is one.
#[tactic(auto, unfolding(crate::specs::Statements::start))]
fn start(alloc: Global, tape: &Tape, at: usize) -> Result<(Option<Expr>, usize), Halt>
    ensures { Reads (option_map expr_of) spec.start tape.now at result }
{
    if let Some(next) = past(Symbol::Set, tape, at) {
        let (value, next) = expr(alloc, 1, tape, next)?;
        Ok((Some(value), next))
    } else {
        Ok((None, at))
    }
}

/// The declaration of a local.
#[tactic(auto, unfolding(crate::specs::Statements::declare))]
pub fn declare(alloc: Global, tape: &Tape, at: usize) -> Result<(Statement, usize), Halt>
    ensures { Reads statement_of spec.declare tape.now at result }
{
    let (of, next) = type_ref(alloc, tape, at)?;
    let (name, next) = expect(Symbol::Name, tape, next)?;
    let (value, next) = start(alloc, tape, next)?;
    let word = word(alloc, tape, name)?;
    Ok((Statement::Declare { of, word, value }, next))
}

/// The rest of an assignment or a count, after its left side.
#[tactic(auto, unfolding(crate::specs::Statements::assign))]
fn assign(alloc: Global, left: Left, tape: &Tape, at: usize) -> Result<(Statement, usize), Halt>
    ensures { Reads statement_of (spec.assign (left_of left)) tape.now at result }
{
    let Some(sign) = mark_at(tape, at) else {
        return Err(Halt::Left(0));
    };
    match assigning_of(sign.symbol) {
        Assigning::Assigns(op) => {
            let (value, next) = expr(alloc, 1, tape, at + 1)?;
            Ok((Statement::Assign { left, op, value }, next))
        }
        Assigning::Counts(up) => Ok((Statement::Count { left, up }, at + 1)),
        Assigning::Nothing => Err(Halt::Left(count_from(tape, at))),
    }
}

/// The rest of a call, an assignment or a count, after its path.
#[tactic(auto, unfolding(crate::specs::Statements::after_names))]
fn after_names(
    alloc: Global,
    path: Path,
    tape: &Tape,
    at: usize,
) -> Result<(Statement, usize), Halt>
    ensures { Reads statement_of (spec.after_names (path_of path)) tape.now at result }
{
    if let Some(next) = past(Symbol::OpenParen, tape, at) {
        let (args, next) = args(alloc, tape, next)?;
        let call = Call { path, args };
        Ok((Statement::Call { call }, next))
    } else {
        let (index, next) = index_in(alloc, tape, at)?;
        assign(alloc, Left { path, index }, tape, next)
    }
}

/// The left side of a count, after its `++` or `--`.
#[tactic(auto, unfolding(crate::specs::Statements::count_statement))]
fn count_statement(
    alloc: Global,
    sign: Symbol,
    up: bool,
    tape: &Tape,
    at: usize,
) -> Result<(Statement, usize), Halt>
    ensures { Reads statement_of (spec.count_statement sign up) tape.now at result }
{
    let next = skip(sign, tape, at)?;
    let (left, next) = left_side(alloc, tape, next)?;
    Ok((Statement::Count { left, up }, next))
}

/// An assignment, a count or a call.
#[tactic(auto, unfolding(crate::specs::Statements::simple))]
pub fn simple(alloc: Global, tape: &Tape, at: usize) -> Result<(Statement, usize), Halt>
    ensures { Reads statement_of spec.simple tape.now at result }
{
    if sees(Symbol::PlusPlus, tape, at) {
        count_statement(alloc, Symbol::PlusPlus, true, tape, at)
    } else if sees(Symbol::MinusMinus, tape, at) {
        count_statement(alloc, Symbol::MinusMinus, false, tape, at)
    } else {
        let (path, next) = path(alloc, tape, at)?;
        after_names(alloc, path, tape, next)
    }
}
