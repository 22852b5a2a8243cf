//! Parts of statements.
ghost use Rattle.std.specs.Prelude.{◌≡◌, slice_set, IfOk};
ghost use Rattle.ulam_tree.specs.Found.{must};
ghost use Rattle.ulam_tree.specs.Resolved as tree;
ghost use Rattle.ulam_tree.specs.ResolvedViews.{resolved_expr, resolved_left};
ghost use Rattle.ulam_tree.specs.TypedViews.{typed_expr};
ghost use Rattle.type_rules.specs.Bodies as walk;
ghost use Rattle.type_rules.specs.Faults.{break_outside};
ghost use Rattle.ulam_types.specs.Results.{resolved_maybe, resolved_does, maybe_view, left_view, GivesStatement};
ghost use Rattle.ulam_types.specs.Shown.{here, Gives};

use crate::copy;
use crate::expr::{call, expr, index, place_of, plain};
use crate::fault::TypeFault;
use crate::lookup::{assignable, is_value, target_type};
use crate::rows::{is_truth, is_void, kind_from, pair_row, plain_type};
use crate::scope::Scope;
use feast_base::Place;
use sat_math::Kind;
use std::alloc::{AllocError, Global};
use ulam_tree::resolved::{Call, Expr, Left, Named, Ty};
use ulam_tree::{PairOp, typed, typed_build as build};

/// A left side, and its type.
fn left_side(alloc: Global, scope: &Scope, raw: &Left) -> Result<(typed::Left, Ty), TypeFault>
    ensures { Gives left_view result (walk.left_side (here scope.now) (resolved_left raw.now)) }
{
    match &raw.index {
        None => match target_type(scope, raw.path.steps.as_slice()) {
            None => Err(TypeFault::NotAssignable(raw.path.place)),
            Some(ty) => Ok((
                typed::Left {
                    path: copy::path(alloc, &raw.path)?,
                    index: None,
                },
                ty,
            )),
        },
        Some(at) => {
            let (at, ty) = index(alloc, scope, &raw.path, at)?;
            let path = copy::path(alloc, &raw.path)?;
            let index = Some(at);
            Ok((typed::Left { path, index }, ty))
        }
    }
}

/// A value for a type. `place` is the place of what it is assigned to.
fn value_for(
    alloc: Global,
    scope: &Scope,
    place: Place,
    ty: Ty,
    raw: &Expr,
) -> Result<typed::Expr, TypeFault>
    ensures { Gives typed_expr result (walk.value_for (here scope.now) place ty (resolved_expr raw.now)) }
{
    let found = expr(alloc, scope, kind_from(ty), raw)?;
    if assignable(scope, ty, found.ty) {
        Ok(found)
    } else {
        Err(TypeFault::NotAssignable(place))
    }
}

/// A condition.
pub fn test(alloc: Global, scope: &Scope, raw: &Expr) -> Result<typed::Expr, TypeFault>
    ensures { Gives typed_expr result (walk.test (here scope.now) (resolved_expr raw.now)) }
{
    let found = expr(alloc, scope, Kind::Int, raw)?;
    if is_truth(found.ty) {
        Ok(found)
    } else {
        Err(TypeFault::WrongType(place_of(raw)))
    }
}

/// A condition, if there is one.
pub fn maybe_test(
    alloc: Global,
    scope: &Scope,
    raw: &Option<Expr>,
) -> Result<Option<typed::Expr>, TypeFault>
    ensures { Gives maybe_view result (walk.maybe_test (here scope.now) (resolved_maybe raw.now)) }
{
    match raw {
        None => Ok(None),
        Some(raw) => Ok(Some(test(alloc, scope, raw)?)),
    }
}

/// A value for a type, if there is one.
fn maybe_value(
    alloc: Global,
    scope: &Scope,
    place: Place,
    ty: Ty,
    raw: &Option<Expr>,
) -> Result<Option<typed::Expr>, TypeFault>
    ensures { Gives maybe_view result (walk.maybe_value (here scope.now) place ty (resolved_maybe raw.now)) }
{
    match raw {
        None => Ok(None),
        Some(raw) => Ok(Some(value_for(alloc, scope, place, ty, raw)?)),
    }
}

/// The value of an assignment, by `=` or by an operator with `=`.
fn assigned_value(
    alloc: Global,
    scope: &Scope,
    place: Place,
    ty: Ty,
    op: Option<PairOp>,
    raw: &Expr,
) -> Result<typed::Expr, TypeFault>
    ensures { Gives typed_expr result (walk.assigned_value (here scope.now) place ty op (resolved_expr raw.now)) }
{
    match op {
        None => value_for(alloc, scope, place, ty, raw),
        Some(op) => {
            let found = expr(alloc, scope, kind_from(ty), raw)?;
            let sum = pair_row(place, op, plain(raw), ty, found.ty)?;
            if assignable(scope, ty, sum) {
                Ok(found)
            } else {
                Err(TypeFault::NotAssignable(place))
            }
        }
    }
}

/// The value of a `return`, which has one exactly if the function has a result.
fn returned_value(
    alloc: Global,
    scope: &Scope,
    place: Place,
    raw: &Option<Expr>,
) -> Result<Option<typed::Expr>, TypeFault>
    ensures { Gives maybe_view result (walk.result (here scope.now) place (resolved_maybe raw.now)) }
{
    match raw {
        None => {
            if is_void(scope.result) {
                Ok(None)
            } else {
                Err(TypeFault::WrongType(place))
            }
        }
        Some(raw) => {
            let found = expr(alloc, scope, kind_from(scope.result), raw)?;
            if is_void(scope.result) {
                Err(TypeFault::WrongType(place))
            } else if assignable(scope, scope.result, found.ty) {
                Ok(Some(found))
            } else {
                Err(TypeFault::NotAssignable(place))
            }
        }
    }
}

/// A `return`.
#[tactic(auto, unfolding(type_rules::specs::Bodies::statement))]
pub fn give(
    alloc: Global,
    scope: &Scope,
    place: Place,
    raw: &Option<Expr>,
) -> Result<typed::Statement, TypeFault>
    ensures { GivesStatement result scope.now (tree.returns place (resolved_maybe raw.now)) }
{
    let value = returned_value(alloc, scope, place, raw)?;
    Ok(typed::Statement::Return { place, value })
}

/// Refuses a place outside a loop.
fn within_loop(scope: &Scope, place: Place) -> Result<(), TypeFault>
    ensures { Gives (λ x. x) result (must (here scope.now).looped (break_outside place)) }
{
    if scope.looped {
        Ok(())
    } else {
        Err(TypeFault::BreakOutside(place))
    }
}

/// A `break`.
#[tactic(auto, unfolding(type_rules::specs::Bodies::statement))]
pub fn breaks(scope: &Scope, place: Place) -> Result<typed::Statement, TypeFault>
    ensures { GivesStatement result scope.now (tree.breaks place) }
{
    within_loop(scope, place)?;
    Ok(typed::Statement::Break { place })
}

/// A `continue`.
#[tactic(auto, unfolding(type_rules::specs::Bodies::statement))]
pub fn continues(scope: &Scope, place: Place) -> Result<typed::Statement, TypeFault>
    ensures { GivesStatement result scope.now (tree.continues place) }
{
    within_loop(scope, place)?;
    Ok(typed::Statement::Continue { place })
}

/// The declaration of a local.
#[tactic(auto, unfolding(type_rules::specs::Bodies::statement))]
pub fn declare(
    alloc: Global,
    scope: &Scope,
    of: Named,
    slot: u32,
    place: Place,
    raw: &Option<Expr>,
) -> Result<typed::Statement, TypeFault>
    ensures { GivesStatement result scope.now (tree.declares of slot place (resolved_maybe raw.now)) }
{
    if !is_value(scope, of.ty) {
        return Err(TypeFault::WrongType(of.place));
    }
    let value = maybe_value(alloc, scope, place, of.ty, raw)?;
    Ok(typed::Statement::Declare {
        of,
        slot,
        place,
        value,
    })
}

/// An assignment.
#[tactic(auto, unfolding(type_rules::specs::Bodies::statement))]
pub fn assign(
    alloc: Global,
    scope: &Scope,
    to: &Left,
    op: Option<PairOp>,
    raw: &Expr,
) -> Result<typed::Statement, TypeFault>
    ensures { GivesStatement result scope.now (tree.assigns (resolved_left to.now) op (resolved_expr raw.now)) }
{
    let (left, ty) = left_side(alloc, scope, to)?;
    let value = assigned_value(alloc, scope, to.path.place, ty, op, raw)?;
    Ok(typed::Statement::Assign { left, op, value })
}

/// `++` or `--`.
#[tactic(auto, unfolding(type_rules::specs::Bodies::statement))]
pub fn count(
    alloc: Global,
    scope: &Scope,
    to: &Left,
    up: bool,
) -> Result<typed::Statement, TypeFault>
    ensures { GivesStatement result scope.now (tree.counts (resolved_left to.now) up) }
{
    let (left, ty) = left_side(alloc, scope, to)?;
    let sum = pair_row(
        to.path.place,
        PairOp::Add,
        true,
        ty,
        plain_type(kind_from(ty)),
    )?;
    if assignable(scope, ty, sum) {
        Ok(typed::Statement::Count { left, up })
    } else {
        Err(TypeFault::NotAssignable(to.path.place))
    }
}

/// A call as a statement.
#[tactic(auto, unfolding(type_rules::specs::Bodies::statement))]
pub fn does(alloc: Global, scope: &Scope, raw: &Call) -> Result<typed::Statement, TypeFault>
    ensures { GivesStatement result scope.now (resolved_does raw.now) }
{
    let (args, _) = call(alloc, scope, &raw.path, raw.args.as_slice())?;
    Ok(build::does(copy::path(alloc, &raw.path)?, args))
}

/// The types of the slots, with `ty` at one of them.
pub fn slots_with(alloc: Global, slots: &[Ty], slot: u32, ty: Ty) -> Result<Vec<Ty>, AllocError>
    ensures { IfOk result (λ v. v.items ≡ slice_set slots.now slot ty) }
{
    let mut copy = Vec::with_capacity(alloc, slots.len())?;
    copy.extend_from_slice(slots)?;
    if (slot as usize) < copy.len() {
        copy[slot as usize] = ty;
    }
    Ok(copy)
}
