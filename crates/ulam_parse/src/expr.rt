//! Expressions.
ghost use Rattle.std.specs.Prelude.{◌≡◌, ◌<◌, ◌∷◌, ◌++◌, [], IfOk, OnOk};
ghost use Rattle.std.specs.Box.{box_value};
ghost use Rattle.ulam_tree.specs.RawViews.{path_of, expr_of, boxed_expr};
ghost use Rattle.ulam_parse.specs.Reading as spec;
ghost use Rattle.ulam_parse.specs.Reading.{behind_args, later_args};
ghost use Rattle.ulam_parse.specs.Views.{Reads, Finds, args_in};

use crate::halt::Halt;
use crate::symbol::{Infix, Opening, Symbol};
use crate::tables::{infix_of, level, level_behind, opening_of};
use crate::take::{count_from, expect, mark_at, past, sees, sees_second, skip, word};
use crate::tape::Tape;
use crate::types::{path, type_ref};
use feast_base::{NoMemory, Place};
use std::alloc::Global;
use ulam_tree::raw_build::{call, cast, group, is, pair, prefix};
use ulam_tree::{Expr, Path};

/// An expression in a box.
pub fn box_expr(alloc: Global, value: Expr) -> Result<Box<Expr>, NoMemory>
    ensures { IfOk result (λ b. box_value b ≡ value) }
{
    Ok(Box::new(alloc, value)?)
}

/// One more argument.
fn keep(found: &mut Vec<Expr>, value: Expr) -> Result<(), NoMemory>
    ensures { OnOk result (found.new.items ≡ found.old.items ++ value ∷ []) }
{
    found.push(value)?;
    Ok(())
}

/// A new atom of a class.
#[tactic(auto, unfolding(crate::specs::Reading::new_atom))]
fn new_atom(alloc: Global, tape: &Tape, at: usize) -> Result<(Expr, usize), Halt>
    ensures { Reads expr_of spec.new_atom tape.now at result }
{
    let (mark, next) = expect(Symbol::TypeName, tape, at)?;
    let next = skip(Symbol::Dot, tape, next)?;
    let next = skip(Symbol::Instanceof, tape, next)?;
    let class = word(alloc, tape, mark)?;
    Ok((Expr::Instance { class }, next))
}

/// An expression whose operators bind at least as tightly as `least`.
pub fn expr(alloc: Global, least: u8, tape: &Tape, at: usize) -> Result<(Expr, usize), Halt>
    requires { least < 13 }
    ensures { Reads expr_of (spec.expr least) tape.now at result }
{
    expr_in(alloc, count_from(tape, at) + 1, least, tape, at)
}

/// An expression, read in fewer than `steps` steps.
#[cycle(expr)]
#[tactic(auto, using(crate::proofs::Steps::expr_steps))]
fn expr_in(
    alloc: Global,
    steps: usize,
    least: u8,
    tape: &Tape,
    at: usize,
) -> Result<(Expr, usize), Halt>
    requires { least < 13 }
    ensures { Reads expr_of (spec.expr_in steps least) tape.now at result }
{
    if steps == 0 {
        return Err(Halt::OutOfSteps);
    }
    climb(alloc, steps - 1, least, tape, at)
}

/// An expression in a box, read in fewer than `steps` steps.
#[cycle(expr)]
fn boxed_in(
    alloc: Global,
    steps: usize,
    least: u8,
    tape: &Tape,
    at: usize,
) -> Result<(Box<Expr>, usize), Halt>
    requires { least < 13 }
    ensures { Reads boxed_expr (spec.expr_in steps least) tape.now at result }
{
    let (value, next) = expr_in(alloc, steps, least, tape, at)?;
    Ok((box_expr(alloc, value)?, next))
}

/// An operand and the operators and operands that follow it.
#[cycle(expr)]
#[tactic(auto, unfolding(crate::specs::Reading::climb))]
fn climb(
    alloc: Global,
    steps: usize,
    least: u8,
    tape: &Tape,
    at: usize,
) -> Result<(Expr, usize), Halt>
    requires { least < 13 }
    ensures { Reads expr_of (spec.climb (spec.expr_in steps) least) tape.now at result }
{
    let (first, next) = operand(alloc, steps, tape, at)?;
    more(alloc, steps, least, first, tape, next)
}

/// An operand.
#[cycle(expr)]
#[tactic(auto, unfolding(crate::specs::Reading::operand), using(crate::proofs::Primaries::counts_only))]
fn operand(alloc: Global, steps: usize, tape: &Tape, at: usize) -> Result<(Expr, usize), Halt>
    ensures { Reads expr_of (spec.operand (spec.expr_in steps)) tape.now at result }
{
    let Some(first) = mark_at(tape, at) else {
        return Err(Halt::Left(0));
    };
    match opening_of(first.symbol) {
        Opening::Signs(op) => {
            let (value, next) = boxed_in(alloc, steps, 12, tape, at + 1)?;
            Ok((prefix(op, value, first.place), next))
        }
        Opening::Parens => in_parens(alloc, steps, first.place, tape, at + 1),
        Opening::Counts => {
            let number = Expr::Number {
                value: first.value,
                unsigned: first.unsigned,
                place: first.place,
            };
            Ok((number, at + 1))
        }
        Opening::Says(value) => {
            let place = first.place;
            Ok((Expr::Truth { value, place }, at + 1))
        }
        Opening::Classes => new_atom(alloc, tape, at),
        Opening::Names | Opening::Owns => path_or_call(alloc, steps, tape, at),
        Opening::Nothing => Err(Halt::Left(count_from(tape, at))),
    }
}

/// The rest of a bracket that opened at `place`: a cast or an expression in brackets.
#[cycle(expr)]
#[tactic(auto, unfolding(crate::specs::Reading::in_parens))]
fn in_parens(
    alloc: Global,
    steps: usize,
    place: Place,
    tape: &Tape,
    at: usize,
) -> Result<(Expr, usize), Halt>
    ensures { Reads expr_of (spec.in_parens (spec.expr_in steps) place) tape.now at result }
{
    if sees(Symbol::TypeName, tape, at) && !sees_second(Symbol::Dot, tape, at) {
        let (to, next) = type_ref(alloc, tape, at)?;
        let next = skip(Symbol::CloseParen, tape, next)?;
        let (value, next) = boxed_in(alloc, steps, 12, tape, next)?;
        Ok((cast(to, value, place), next))
    } else {
        let (inner, next) = boxed_in(alloc, steps, 1, tape, at)?;
        let next = skip(Symbol::CloseParen, tape, next)?;
        Ok((group(inner, place), next))
    }
}

/// The operators and operands that follow an expression.
#[cycle(expr)]
fn more(
    alloc: Global,
    steps: usize,
    least: u8,
    first: Expr,
    tape: &Tape,
    at: usize,
) -> Result<(Expr, usize), Halt>
    requires { least < 13 }
    ensures { Reads expr_of (spec.after_operand (spec.expr_in steps) least (expr_of first)) tape.now at result }
{
    let mut value = first;
    let mut top: u8 = 12;
    let mut next = at;
    'turns: for _turn in 0..count_from(tape, at) + 1 {
        let Some(sign) = mark_at(tape, next) else {
            return Ok((value, next));
        };
        match infix_of(sign.symbol) {
            Infix::Joins(op) => {
                let level = level(op);
                if least <= level && level <= top {
                    let left = box_expr(alloc, value)?;
                    let (right, behind) = boxed_in(alloc, steps, level_behind(op), tape, next + 1)?;
                    value = pair(op, left, right, sign.place);
                    top = level;
                    next = behind;
                } else {
                    return Ok((value, next));
                }
            }
            Infix::Tests => {
                if least <= 8 && 9 <= top {
                    let (mark, behind) = expect(Symbol::TypeName, tape, next + 1)?;
                    let tested = box_expr(alloc, value)?;
                    value = is(tested, word(alloc, tape, mark)?, sign.place);
                    top = 8;
                    next = behind;
                } else {
                    return Ok((value, next));
                }
            }
            Infix::Opens | Infix::Ends => return Ok((value, next)),
        }
    }
    Err(Halt::OutOfSteps)
}

/// A path, a call or an element of an array.
#[cycle(expr)]
fn path_or_call(alloc: Global, steps: usize, tape: &Tape, at: usize) -> Result<(Expr, usize), Halt>
    ensures { Reads expr_of (spec.path_or_call (spec.expr_in steps)) tape.now at result }
{
    let (path, next) = path(alloc, tape, at)?;
    after_path(alloc, steps, path, tape, next)
}

/// The rest of a path, a call or an element of an array, after the path.
#[cycle(expr)]
#[tactic(auto, unfolding(crate::specs::Reading::after_path))]
fn after_path(
    alloc: Global,
    steps: usize,
    path: Path,
    tape: &Tape,
    at: usize,
) -> Result<(Expr, usize), Halt>
    ensures { Reads expr_of (spec.after_path (spec.expr_in steps) (path_of path)) tape.now at result }
{
    if let Some(next) = past(Symbol::OpenParen, tape, at) {
        let (args, next) = args_in(alloc, steps, tape, next)?;
        Ok((call(path, args), next))
    } else if let Some(next) = past(Symbol::OpenBracket, tape, at) {
        let (at, next) = boxed_in(alloc, steps, 1, tape, next)?;
        let next = skip(Symbol::CloseBracket, tape, next)?;
        Ok((Expr::Index { path, at }, next))
    } else {
        Ok((Expr::Path { path }, at))
    }
}

/// Arguments and the closing bracket, read in fewer than `steps` steps.
#[cycle(expr)]
#[tactic(auto, unfolding(crate::specs::Reading::args))]
fn args_in(alloc: Global, steps: usize, tape: &Tape, at: usize) -> Result<(Vec<Expr>, usize), Halt>
    ensures { Reads args_in (spec.args (spec.expr_in steps)) tape.now at result }
{
    let mut found = Vec::new(alloc);
    if let Some(next) = past(Symbol::CloseParen, tape, at) {
        return Ok((found, next));
    }
    let (first, next) = expr_in(alloc, steps, 1, tape, at)?;
    keep(&mut found, first)?;
    let next = more_args(alloc, steps, &mut found, tape, next)?;
    Ok((found, next))
}

/// Further arguments, appended to `found`, and the closing bracket.
#[cycle(expr)]
fn more_args(
    alloc: Global,
    steps: usize,
    found: &mut Vec<Expr>,
    tape: &Tape,
    at: usize,
) -> Result<usize, Halt>
    ensures { Finds (args_in found.new) (behind_args (args_in found.old) (later_args steps)) tape.now at result }
{
    let mut next = at;
    'turns: for _turn in 0..count_from(tape, at) + 1 {
        let Some(behind) = past(Symbol::Comma, tape, next) else {
            return skip(Symbol::CloseParen, tape, next);
        };
        let (value, behind) = expr_in(alloc, steps, 1, tape, behind)?;
        keep(found, value)?;
        next = behind;
    }
    Err(Halt::OutOfSteps)
}

/// Arguments and the closing bracket.
pub fn args(alloc: Global, tape: &Tape, at: usize) -> Result<(Vec<Expr>, usize), Halt>
    ensures { Reads args_in spec.all_args tape.now at result }
{
    args_in(alloc, count_from(tape, at) + 1, tape, at)
}
