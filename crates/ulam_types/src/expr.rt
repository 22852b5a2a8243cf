//! Types of expressions.
ghost use Rattle.std.specs.Prelude.{◌≡◌, length, true, IfOk, IsTrue};
ghost use Rattle.sat_math.specs.declared.Kind.{Kind};
ghost use Rattle.ulam_tree.specs.ResolvedViews.{resolved_expr, resolved_args, resolved_path, boxed_expr as resolved_boxed};
ghost use Rattle.ulam_tree.specs.Resolved as tree;
ghost use Rattle.ulam_tree.specs.TypedViews.{boxed_expr};
ghost use Rattle.ulam_types.specs.Compound.{is_compound};
ghost use Rattle.ulam_types.specs.Results.{args_view, call_view, item_view, GivesExpr};
ghost use Rattle.type_rules.specs.Scopes as spec;
ghost use Rattle.ulam_types.specs.Shown.{here, Gives};
ghost use Rattle.type_rules.specs.Walk as walk;

use crate::copy;
use crate::fault::TypeFault;
use crate::form::{call_value, instance, number, pair, truth_at, type_or_fault, value_at};
use crate::lookup::{begins_local, function_at, is_atom, is_species, item_type, last_step};
use crate::rows::{beside, cast_type, is_index, kind_from, prefix_type, truth};
use crate::scope::Scope;
use crate::suits::{all_suit, built_type, taken_want};
use feast_base::Place;
use sat_math::Kind;
use std::alloc::Global;
use type_rules::Want;
use ulam_tree::resolved::{Built, Expr, Named, Path, Step, Ty};
use ulam_tree::{typed, typed_build as build};

/// Whether an expression is a number without `u`, in any number of brackets.
pub fn plain(raw: &Expr) -> bool
    ensures { result ≡ walk.plain (resolved_expr raw.now) }
{
    match raw {
        Expr::Number { unsigned, .. } => !*unsigned,
        Expr::Group { inner, .. } => plain(inner),
        _ => false,
    }
}

/// The place of an expression.
pub fn place_of(raw: &Expr) -> Place
    ensures { result ≡ walk.place_of (resolved_expr raw.now) }
{
    match raw {
        Expr::Number { place, .. } => *place,
        Expr::Truth { place, .. } => *place,
        Expr::Path { path } => path.place,
        Expr::Call { call } => call.path.place,
        Expr::Index { path, .. } => path.place,
        Expr::Instance { class } => class.place,
        Expr::Group { place, .. } => *place,
        Expr::Cast { place, .. } => *place,
        Expr::Prefix { place, .. } => *place,
        Expr::Pair { place, .. } => *place,
        Expr::Is { place, .. } => *place,
    }
}

/// An expression. A plain number takes the kind `want`.
#[cycle(expr)]
#[tactic(auto, unfolding(type_rules::specs::Walk::expr))]
pub fn expr(alloc: Global, scope: &Scope, want: Kind, raw: &Expr) -> Result<typed::Expr, TypeFault>
    ensures { GivesExpr result scope.now want (resolved_expr raw.now) }
{
    match raw {
        Expr::Number {
            value,
            unsigned,
            place,
        } => number(want, *value, *unsigned, *place),
        Expr::Truth { value, place } => Ok(truth_at(*value, *place)),
        Expr::Path { path } => value_at(alloc, scope, path),
        Expr::Call { call: called } => {
            let (args, ty) = call(alloc, scope, &called.path, called.args.as_slice())?;
            call_value(alloc, scope, &called.path, args, ty)
        }
        Expr::Index { path, at } => {
            let (at, ty) = index(alloc, scope, path, at)?;
            Ok(build::index(copy::path(alloc, path)?, at, ty))
        }
        Expr::Instance { class } => instance(scope, *class),
        Expr::Group { .. }
        | Expr::Cast { .. }
        | Expr::Prefix { .. }
        | Expr::Pair { .. }
        | Expr::Is { .. } => compound(alloc, scope, want, raw),
    }
}

/// An expression in brackets, or an operator with its operands.
#[cycle(expr)]
#[tactic(auto, unfolding(type_rules::specs::Walk::expr))]
fn compound(alloc: Global, scope: &Scope, want: Kind, raw: &Expr) -> Result<typed::Expr, TypeFault>
    requires { IsTrue (is_compound (resolved_expr raw.now)) }
    ensures { GivesExpr result scope.now want (resolved_expr raw.now) }
{
    match raw {
        Expr::Group { inner, place } => {
            let inner = box_expr(alloc, scope, want, inner)?;
            Ok(build::group(inner, *place))
        }
        Expr::Cast { to, value, place } => {
            let value = box_expr(alloc, scope, Kind::Int, value)?;
            let ty = type_or_fault(cast_type(to.ty, value.ty), *place)?;
            Ok(build::cast(*to, value, *place, ty))
        }
        Expr::Prefix { op, value, place } => {
            let value = box_expr(alloc, scope, Kind::Int, value)?;
            let ty = type_or_fault(prefix_type(*op, value.ty), *place)?;
            Ok(build::prefix(*op, value, *place, ty))
        }
        Expr::Pair {
            op,
            left,
            right,
            place,
        } => {
            let plain_left = plain(left);
            let plain_right = plain(right);
            if plain_left && !plain_right {
                let right = box_expr(alloc, scope, Kind::Int, right)?;
                let left = box_expr(alloc, scope, kind_from(right.ty), left)?;
                pair(*op, left, right, plain_right, *place)
            } else {
                let left = box_expr(alloc, scope, Kind::Int, left)?;
                let right = box_expr(alloc, scope, beside(plain_left, left.ty), right)?;
                pair(*op, left, right, plain_right, *place)
            }
        }
        Expr::Is {
            value,
            class,
            place,
        } => is(alloc, scope, value, *class, *place),
        _ => Err(TypeFault::WrongType(place_of(raw))),
    }
}

/// A test of the class of a value.
#[cycle(expr)]
#[tactic(auto, unfolding(type_rules::specs::Walk::expr))]
fn is(
    alloc: Global,
    scope: &Scope,
    value: &Expr,
    class: Named,
    place: Place,
) -> Result<typed::Expr, TypeFault>
    ensures { (want : Kind) → GivesExpr result scope.now want (tree.is (resolved_expr value.now) class place) }
{
    let value = expr(alloc, scope, Kind::Int, value)?;
    let value = Box::new(alloc, value)?;
    if !is_atom(scope, value.ty) {
        return Err(TypeFault::WrongType(place));
    }
    if !is_species(scope, class.ty) {
        return Err(TypeFault::BadAs(class.place));
    }
    Ok(build::is(value, class, place, truth()))
}

/// A part of an expression.
#[cycle(expr)]
fn box_expr(
    alloc: Global,
    scope: &Scope,
    want: Kind,
    raw: &Box<Expr>,
) -> Result<Box<typed::Expr>, TypeFault>
    ensures { Gives boxed_expr result (walk.expr (here scope.now) want (resolved_boxed raw.now)) }
{
    let found = expr(alloc, scope, want, raw)?;
    Ok(Box::new(alloc, found)?)
}

/// A typed index in square brackets, and the type of what stands at it.
#[cycle(expr)]
pub fn index(
    alloc: Global,
    scope: &Scope,
    path: &Path,
    at: &Expr,
) -> Result<(Box<typed::Expr>, Ty), TypeFault>
    ensures { Gives item_view result (walk.item (here scope.now) (resolved_path path.now) (resolved_expr at.now)) }
{
    match item_type(scope, path.steps.as_slice()) {
        None => Err(TypeFault::WrongType(path.place)),
        Some(ty) => {
            let at = Box::new(alloc, expr(alloc, scope, Kind::Int, at)?)?;
            if is_index(at.ty) {
                Ok((at, ty))
            } else {
                Err(TypeFault::WrongType(path.place))
            }
        }
    }
}

/// The arguments of a call, and its type.
#[cycle(expr)]
pub fn call(
    alloc: Global,
    scope: &Scope,
    path: &Path,
    raw: &[Expr],
) -> Result<(Vec<typed::Expr>, Ty), TypeFault>
    ensures { Gives call_view result (walk.call (here scope.now) (resolved_path path.now) (resolved_args raw.now)) }
{
    let place = path.place;
    if begins_local(path.steps.as_slice()) {
        return Err(TypeFault::WrongType(place));
    }
    match last_step(path.steps.as_slice()) {
        Some(Step::Function { class, function }) => match function_at(scope, class, function) {
            None => Err(TypeFault::WrongType(place)),
            Some(found) => {
                let args = arguments(alloc, scope, place, false, found.wants.as_slice(), raw)?;
                Ok((args, found.result))
            }
        },
        Some(Step::Built { call }) => built_call(alloc, scope, place, call, raw),
        _ => Err(TypeFault::WrongType(place)),
    }
}

/// The arguments of a call of a built-in function, and its type.
#[cycle(expr)]
fn built_call(
    alloc: Global,
    scope: &Scope,
    place: Place,
    call: Built,
    raw: &[Expr],
) -> Result<(Vec<typed::Expr>, Ty), TypeFault>
    ensures { Gives call_view result (walk.call_of (here scope.now) place (spec.built call) (resolved_args raw.now)) }
{
    let args = built_arguments(alloc, scope, place, call, raw)?;
    let ty = built_type(call, args.as_slice());
    Ok((args, ty))
}

/// The arguments of a call of a built-in function.
#[cycle(expr)]
fn built_arguments(
    alloc: Global,
    scope: &Scope,
    place: Place,
    call: Built,
    raw: &[Expr],
) -> Result<Vec<typed::Expr>, TypeFault>
    ensures { Gives args_view result (walk.args_of (here scope.now) place true (spec.built_wants call) (resolved_args raw.now)) }
{
    match call {
        Built::Swap => arguments(alloc, scope, place, true, &[Want::Site, Want::Site], raw),
        Built::IsLive | Built::IsEmpty => arguments(alloc, scope, place, true, &[Want::Site], raw),
        Built::OneIn | Built::Create => arguments(alloc, scope, place, true, &[Want::Bound], raw),
    }
}

/// The arguments of a call, as many as `wants`, each of which suits what is wanted.
#[cycle(expr)]
fn arguments(
    alloc: Global,
    scope: &Scope,
    place: Place,
    built: bool,
    wants: &[Want],
    raw: &[Expr],
) -> Result<Vec<typed::Expr>, TypeFault>
    ensures { Gives args_view result (walk.args_of (here scope.now) place built wants.now (resolved_args raw.now)) }
{
    if wants.len() != raw.len() {
        return Err(TypeFault::WrongCount(place));
    }
    let found = args(alloc, scope, wants, raw)?;
    if all_suit(scope, wants, found.as_slice()) {
        Ok(found)
    } else if built {
        Err(TypeFault::WrongType(place))
    } else {
        Err(TypeFault::NotAssignable(place))
    }
}

/// Typed arguments. A plain number takes the kind that is wanted.
#[cycle(expr)]
fn args(
    alloc: Global,
    scope: &Scope,
    wants: &[Want],
    raw: &[Expr],
) -> Result<Vec<typed::Expr>, TypeFault>
    requires { length wants.now ≡ length raw.now }
    ensures gives { Gives args_view result (walk.args (here scope.now) wants.now (resolved_args raw.now)) }
    ensures many { IfOk result (λ v. length v.items ≡ length raw.now) }
{
    let mut found = Vec::new(alloc);
    for i in 0..raw.len() {
        let want = taken_want(wants[i]);
        let value = expr(alloc, scope, want, &raw[i])?;
        found.push(value)?;
    }
    Ok(found)
}
