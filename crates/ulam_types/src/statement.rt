//! Types of statements.
ghost use Rattle.ulam_tree.specs.Resolved as tree;
ghost use Rattle.ulam_tree.specs.ResolvedViews.{resolved_expr, resolved_path, resolved_cond, resolved_statement, resolved_body, resolved_part};
ghost use Rattle.ulam_tree.specs.TypedViews.{typed_part, boxed_statement};
ghost use Rattle.type_rules.specs.Bodies as walk;
ghost use Rattle.ulam_types.specs.Results.{body_view, GivesBranch, GivesStatement};
ghost use Rattle.type_rules.specs.Scopes.{in_loop};
ghost use Rattle.ulam_types.specs.Shown.{here, Gives};

use crate::copy;
use crate::fault::TypeFault;
use crate::lookup::{atom_slot, is_element_type};
use crate::parts::{
    assign, breaks, continues, count, declare, does, give, maybe_test, slots_with, test,
};
use crate::scope::Scope;
use std::alloc::Global;
use ulam_tree::resolved::{Cond, Expr, Named, Path, Statement};
use ulam_tree::{typed, typed_build as build};

/// A statement.
#[cycle(statement)]
#[tactic(auto, unfolding(type_rules::specs::Bodies::statement))]
pub fn statement(
    alloc: Global,
    scope: &Scope,
    raw: &Statement,
) -> Result<typed::Statement, TypeFault>
    ensures { GivesStatement result scope.now (resolved_statement raw.now) }
{
    match raw {
        Statement::Block { body: list } => {
            let list = body(alloc, scope, list.as_slice())?;
            Ok(build::block(list))
        }
        Statement::Nothing => Ok(typed::Statement::Nothing),
        Statement::If { cond, yes, no } => {
            let (cond, yes) = branch(alloc, scope, yes, cond)?;
            let no = part(alloc, scope, no)?;
            Ok(build::if_so(cond, yes, no))
        }
        Statement::While { cond, body } => while_so(alloc, scope, body, cond),
        Statement::For {
            first,
            cond,
            step,
            body,
        } => {
            let first = part(alloc, scope, first)?;
            let cond = maybe_test(alloc, scope, cond)?;
            let step = part(alloc, scope, step)?;
            let body = turns(alloc, scope, body)?;
            Ok(build::for_all(first, cond, step, body))
        }
        Statement::Return { place, value } => give(alloc, scope, *place, value),
        Statement::Break { place } => breaks(scope, *place),
        Statement::Continue { place } => continues(scope, *place),
        Statement::Declare {
            of,
            slot,
            place,
            value,
        } => declare(alloc, scope, *of, *slot, *place, value),
        Statement::Assign { left, op, value } => assign(alloc, scope, left, *op, value),
        Statement::Count { left, up } => count(alloc, scope, left, *up),
        Statement::Call { call } => does(alloc, scope, call),
    }
}

/// A `while`.
#[cycle(statement)]
#[tactic(auto, unfolding(type_rules::specs::Bodies::statement))]
fn while_so(
    alloc: Global,
    scope: &Scope,
    body: &Statement,
    cond: &Expr,
) -> Result<typed::Statement, TypeFault>
    ensures { GivesStatement result scope.now (tree.while_so (resolved_expr cond.now) (resolved_statement body.now)) }
{
    let cond = test(alloc, scope, cond)?;
    let body = turns(alloc, scope, body)?;
    Ok(typed::Statement::While { cond, body })
}

/// The body of a loop.
#[cycle(statement)]
fn turns(alloc: Global, scope: &Scope, raw: &Statement) -> Result<Box<typed::Statement>, TypeFault>
    ensures { Gives boxed_statement result (walk.statement (in_loop (here scope.now)) (resolved_statement raw.now)) }
{
    let inner = Scope {
        looped: true,
        ..*scope
    };
    inside(alloc, &inner, raw)
}

/// A statement inside another one.
#[cycle(statement)]
fn inside(alloc: Global, scope: &Scope, raw: &Statement) -> Result<Box<typed::Statement>, TypeFault>
    ensures { Gives boxed_statement result (walk.statement (here scope.now) (resolved_statement raw.now)) }
{
    let found = statement(alloc, scope, raw)?;
    Ok(Box::new(alloc, found)?)
}

/// A statement that may be absent.
#[cycle(statement)]
#[tactic(auto, unfolding(type_rules::specs::Bodies::statement))]
fn part(
    alloc: Global,
    scope: &Scope,
    raw: &Option<Box<Statement>>,
) -> Result<Option<Box<typed::Statement>>, TypeFault>
    ensures { Gives typed_part result (walk.part (here scope.now) (resolved_part raw.now)) }
{
    match raw {
        None => Ok(None),
        Some(one) => {
            let one = inside(alloc, scope, one)?;
            Ok(Some(one))
        }
    }
}

/// The condition of an `if`, and its first branch, in which a name may be seen as an element.
#[cycle(statement)]
fn branch(
    alloc: Global,
    scope: &Scope,
    yes: &Statement,
    cond: &Cond,
) -> Result<(typed::Cond, Box<typed::Statement>), TypeFault>
    ensures { GivesBranch result scope.now (resolved_cond cond.now) (resolved_statement yes.now) }
{
    match cond {
        Cond::Test { value } => {
            let value = test(alloc, scope, value)?;
            let yes = inside(alloc, scope, yes)?;
            Ok((typed::Cond::Test { value }, yes))
        }
        Cond::Seen { path, class } => if_as(alloc, scope, yes, path, *class),
    }
}

/// The condition of an `if` with `as`, and its first branch, in which the name is seen as the
/// element.
#[cycle(statement)]
fn if_as(
    alloc: Global,
    scope: &Scope,
    yes: &Statement,
    path: &Path,
    class: Named,
) -> Result<(typed::Cond, Box<typed::Statement>), TypeFault>
    ensures { GivesBranch result scope.now (tree.seen (resolved_path path.now) class) (resolved_statement yes.now) }
{
    let Some(slot) = atom_slot(scope, path.steps.as_slice()) else {
        return Err(TypeFault::BadAs(path.place));
    };
    if !is_element_type(scope, class.ty) {
        return Err(TypeFault::BadAs(class.place));
    }
    let slots = slots_with(alloc, scope.slots, slot, class.ty)?;
    let inner = Scope {
        slots: slots.as_slice(),
        ..*scope
    };
    let yes = inside(alloc, &inner, yes)?;
    let path = copy::path(alloc, path)?;
    Ok((typed::Cond::Seen { path, class }, yes))
}

/// The statements of a block or of a function.
#[cycle(statement)]
pub fn body(
    alloc: Global,
    scope: &Scope,
    raw: &[Statement],
) -> Result<Vec<typed::Statement>, TypeFault>
    ensures { Gives body_view result (walk.body (here scope.now) (resolved_body raw.now)) }
{
    let mut found = Vec::new(alloc);
    for one in raw {
        let one = statement(alloc, scope, one)?;
        found.push(one)?;
    }
    Ok(found)
}
