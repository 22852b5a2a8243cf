//! Statements.
//!
//! The entries are cut back where a scope ends. `from` is where the innermost scope begins among
//! them, and `slot` the next free slot.
ghost use Rattle.std.specs.Prelude.{◌≡◌, ◌≤◌, ◌+◌, length, IsTrue};
ghost use Rattle.std.specs.Box.{box_value};
ghost use Rattle.ulam_names.specs.BodyWalk as walk;
ghost use Rattle.ulam_names.specs.Shown.{boxed_statement, each_statement, has_no_branch, IsFront};
ghost use Rattle.ulam_names.specs.Outcomes.{Resolves, After, AreSame};
ghost use Rattle.feast_base.specs.declared.limits.TheConstants.{MOST_PARAMS};
ghost use Rattle.ulam_names.specs.declared.limits.TheConstants.{MOST_LOCALS};
ghost use Rattle.ulam_tree.specs.RawViews.{statement_of};
ghost use Rattle.ulam_tree.specs.ResolvedViews.{resolved_statement, resolved_part};

use crate::expr::expr;
use crate::fault::NameFault;
use crate::leaf::{in_box, leaf};
use crate::parts::{self, maybe_expr, show};
use crate::scope::{Context, Entry};
use std::alloc::Global;
use ulam_tree as raw;
use ulam_tree::resolved::{Cond, Statement};
use ulam_tree::resolved_build as build;

/// A statement, and the next free slot after it.
#[cycle(statement)]
pub fn statement<'a>(
    alloc: Global,
    context: &Context<'_, 'a>,
    entries: &mut Vec<Entry<'a>>,
    from: usize,
    slot: u32,
    raw: &'a raw::Statement,
) -> Result<(Statement, u32), NameFault>
    requires params { context.now.params ≤ MOST_PARAMS }
    requires slot { slot ≤ context.now.params + MOST_LOCALS }
    requires from { from ≤ length entries.old.items }
    ensures { Resolves resolved_statement result (walk.statement_end context.now entries.old from slot raw.now) (λ x. After entries.old entries.new (walk.after context.now entries.old from slot raw.now x)) }
{
    match raw {
        raw::Statement::Block { body: list } => {
            block(alloc, context, entries, slot, list.as_slice())
        }
        raw::Statement::If { cond, yes, no } => {
            let found = parts::cond(alloc, context, entries.as_slice(), cond)?;
            let (yes, next) = branch(alloc, context, entries, slot, yes, cond, &found)?;
            let len = entries.len();
            let (no, next) = part(alloc, context, entries, len, next, no)?;
            Ok((build::if_so(found, yes, no), next))
        }
        _ => plain_statement(alloc, context, entries, from, slot, raw),
    }
}

/// A statement other than a block or an `if`.
#[cycle(statement)]
fn plain_statement<'a>(
    alloc: Global,
    context: &Context<'_, 'a>,
    entries: &mut Vec<Entry<'a>>,
    from: usize,
    slot: u32,
    raw: &'a raw::Statement,
) -> Result<(Statement, u32), NameFault>
    requires params { context.now.params ≤ MOST_PARAMS }
    requires slot { slot ≤ context.now.params + MOST_LOCALS }
    requires from { from ≤ length entries.old.items }
    requires plain { IsTrue (has_no_branch (statement_of raw.now)) }
    ensures { Resolves resolved_statement result (walk.statement_end context.now entries.old from slot raw.now) (λ x. After entries.old entries.new (walk.after context.now entries.old from slot raw.now x)) }
{
    match raw {
        raw::Statement::While { cond: test, body } => {
            while_so(alloc, context, entries, slot, body, test)
        }
        raw::Statement::For {
            first,
            cond: test,
            step,
            body,
        } => {
            let len = entries.len();
            let (first, next) = first_part(alloc, context, entries, len, slot, first)?;
            let test = maybe_expr(alloc, context, entries.as_slice(), test)?;
            let (step, next) = part(alloc, context, entries, len, next, step)?;
            let (body, next) = inner(alloc, context, entries, next, body)?;
            entries.truncate(len);
            Ok((build::for_all(first, test, step, body), next))
        }
        _ => leaf(alloc, context, entries, from, slot, raw),
    }
}

/// A block.
#[cycle(statement)]
fn block<'a>(
    alloc: Global,
    context: &Context<'_, 'a>,
    entries: &mut Vec<Entry<'a>>,
    slot: u32,
    raw: &'a [raw::Statement],
) -> Result<(Statement, u32), NameFault>
    requires params { context.now.params ≤ MOST_PARAMS }
    requires slot { slot ≤ context.now.params + MOST_LOCALS }
    ensures { Resolves resolved_statement result (walk.block_end context.now entries.old slot raw.now) (λ _. AreSame entries.old entries.new) }
{
    let len = entries.len();
    let (list, next) = body(alloc, context, entries, len, slot, raw)?;
    entries.truncate(len);
    Ok((build::block(list), next))
}

/// A `while`.
#[cycle(statement)]
fn while_so<'a>(
    alloc: Global,
    context: &Context<'_, 'a>,
    entries: &mut Vec<Entry<'a>>,
    slot: u32,
    raw: &'a raw::Statement,
    test: &raw::Expr,
) -> Result<(Statement, u32), NameFault>
    requires params { context.now.params ≤ MOST_PARAMS }
    requires slot { slot ≤ context.now.params + MOST_LOCALS }
    ensures { Resolves resolved_statement result (walk.while_end context.now entries.old slot raw.now test.now) (λ _. AreSame entries.old entries.new) }
{
    let test = expr(alloc, context, entries.as_slice(), test)?;
    let (body, next) = inner(alloc, context, entries, slot, raw)?;
    Ok((Statement::While { cond: test, body }, next))
}

/// A statement in a box.
#[cycle(statement)]
fn box_statement<'a>(
    alloc: Global,
    context: &Context<'_, 'a>,
    entries: &mut Vec<Entry<'a>>,
    from: usize,
    slot: u32,
    raw: &'a raw::Statement,
) -> Result<(Box<Statement>, u32), NameFault>
    requires params { context.now.params ≤ MOST_PARAMS }
    requires slot { slot ≤ context.now.params + MOST_LOCALS }
    requires from { from ≤ length entries.old.items }
    ensures { Resolves boxed_statement result (walk.statement_end context.now entries.old from slot raw.now) (λ x. After entries.old entries.new (walk.after context.now entries.old from slot raw.now (box_value x))) }
{
    let (found, next) = statement(alloc, context, entries, from, slot, raw)?;
    Ok((in_box(alloc, found)?, next))
}

/// A statement inside another one, in a scope of its own.
#[cycle(statement)]
fn inner<'a>(
    alloc: Global,
    context: &Context<'_, 'a>,
    entries: &mut Vec<Entry<'a>>,
    slot: u32,
    raw: &'a raw::Statement,
) -> Result<(Box<Statement>, u32), NameFault>
    requires params { context.now.params ≤ MOST_PARAMS }
    requires slot { slot ≤ context.now.params + MOST_LOCALS }
    ensures { Resolves boxed_statement result (walk.inner_end context.now entries.old slot raw.now) (λ _. AreSame entries.old entries.new) }
{
    let len = entries.len();
    let found = box_statement(alloc, context, entries, len, slot, raw)?;
    entries.truncate(len);
    Ok(found)
}

/// The first statement of a `for`. What it declares stays in scope.
#[cycle(statement)]
fn first_part<'a>(
    alloc: Global,
    context: &Context<'_, 'a>,
    entries: &mut Vec<Entry<'a>>,
    from: usize,
    slot: u32,
    raw: &'a Option<Box<raw::Statement>>,
) -> Result<(Option<Box<Statement>>, u32), NameFault>
    requires params { context.now.params ≤ MOST_PARAMS }
    requires slot { slot ≤ context.now.params + MOST_LOCALS }
    requires from { from ≤ length entries.old.items }
    ensures { Resolves resolved_part result (walk.part_end context.now entries.old from slot raw.now) (λ x. After entries.old entries.new (walk.after_part context.now entries.old from slot raw.now x)) }
{
    match raw {
        None => Ok((None, slot)),
        Some(one) => {
            let (one, next) = box_statement(alloc, context, entries, from, slot, one)?;
            Ok((Some(one), next))
        }
    }
}

/// A statement that may be absent. What it declares is out of scope after it.
#[cycle(statement)]
fn part<'a>(
    alloc: Global,
    context: &Context<'_, 'a>,
    entries: &mut Vec<Entry<'a>>,
    from: usize,
    slot: u32,
    raw: &'a Option<Box<raw::Statement>>,
) -> Result<(Option<Box<Statement>>, u32), NameFault>
    requires params { context.now.params ≤ MOST_PARAMS }
    requires slot { slot ≤ context.now.params + MOST_LOCALS }
    requires from { from ≤ length entries.old.items }
    ensures { Resolves resolved_part result (walk.part_end context.now entries.old from slot raw.now) (λ _. AreSame entries.old entries.new) }
{
    let len = entries.len();
    let found = first_part(alloc, context, entries, from, slot, raw)?;
    entries.truncate(len);
    Ok(found)
}

/// The first branch of an `if`, in a scope of its own with the name that the condition shows.
#[cycle(statement)]
fn branch<'a>(
    alloc: Global,
    context: &Context<'_, 'a>,
    entries: &mut Vec<Entry<'a>>,
    slot: u32,
    raw: &'a raw::Statement,
    test: &'a raw::Cond,
    found: &Cond,
) -> Result<(Box<Statement>, u32), NameFault>
    requires params { context.now.params ≤ MOST_PARAMS }
    requires slot { slot ≤ context.now.params + MOST_LOCALS }
    ensures { Resolves boxed_statement result (walk.branch_end context.now entries.old slot raw.now test.now found.now) (λ _. AreSame entries.old entries.new) }
{
    let len = entries.len();
    show(context, entries, test, found)?;
    let found = inner(alloc, context, entries, slot, raw)?;
    entries.truncate(len);
    Ok(found)
}

/// The statements of a block or of a function.
#[cycle(statement)]
pub fn body<'a>(
    alloc: Global,
    context: &Context<'_, 'a>,
    entries: &mut Vec<Entry<'a>>,
    from: usize,
    slot: u32,
    raw: &'a [raw::Statement],
) -> Result<(Vec<Statement>, u32), NameFault>
    requires params { context.now.params ≤ MOST_PARAMS }
    requires slot { slot ≤ context.now.params + MOST_LOCALS }
    requires from { from ≤ length entries.old.items }
    ensures { Resolves each_statement result (walk.body_end context.now entries.old from slot raw.now) (λ _. IsFront entries.old entries.new) }
{
    let mut found = Vec::new(alloc);
    let mut next = slot;
    for one in raw {
        let (one, after) = statement(alloc, context, entries, from, next, one)?;
        found.push(one)?;
        next = after;
    }
    Ok((found, next))
}
