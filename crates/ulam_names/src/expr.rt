//! Expressions.
ghost use Rattle.std.specs.Box.{box_value};
ghost use Rattle.ulam_names.specs.BodyWalk as walk;
ghost use Rattle.ulam_names.specs.Shown.{Gives};
ghost use Rattle.ulam_tree.specs.ResolvedViews.{resolved_expr, resolved_args};

use crate::fault::NameFault;
use crate::path::path;
use crate::scope::{Context, Entry};
use crate::types::{class_named, type_in};
use feast_base::Place;
use std::alloc::Global;
use ulam_tree as raw;
use ulam_tree::resolved::Expr;
use ulam_tree::{Word, resolved_build as build};

/// An expression. Each part is put into its box before the next one is resolved.
#[cycle(expr)]
#[tactic(auto, using(ulam_tree::proofs::RawRows::call_is))]
pub fn expr(
    alloc: Global,
    context: &Context,
    entries: &[Entry],
    raw: &raw::Expr,
) -> Result<Expr, NameFault>
    ensures { Gives resolved_expr result (walk.expr context.now entries.now raw.now) }
{
    match raw {
        raw::Expr::Number {
            value,
            unsigned,
            place,
        } => Ok(build::number(*value, *unsigned, *place)),
        raw::Expr::Truth { value, place } => Ok(build::truth(*value, *place)),
        raw::Expr::Path { path: words } => Ok(Expr::Path {
            path: path(alloc, context, entries, words)?,
        }),
        raw::Expr::Call { call } => {
            resolve_call(alloc, context, entries, &call.path, call.args.as_slice())
        }
        raw::Expr::Index { path: words, at } => index(alloc, context, entries, words, at),
        raw::Expr::Instance { class } => Ok(Expr::Instance {
            class: class_named(context, class)?,
        }),
        raw::Expr::Group { inner, place } => {
            Ok(build::group(box_expr(alloc, context, entries, inner)?, *place))
        }
        raw::Expr::Cast { to, value, place } => cast(alloc, context, entries, to, value, *place),
        raw::Expr::Prefix { op, value, place } => {
            Ok(build::prefix(*op, box_expr(alloc, context, entries, value)?, *place))
        }
        raw::Expr::Pair {
            op,
            left,
            right,
            place,
        } => {
            let left = box_expr(alloc, context, entries, left)?;
            let right = box_expr(alloc, context, entries, right)?;
            Ok(build::pair(*op, left, right, *place))
        }
        raw::Expr::Is {
            value,
            class,
            place,
        } => is(alloc, context, entries, value, class, *place),
    }
}

/// A call.
#[cycle(expr)]
fn resolve_call(
    alloc: Global,
    context: &Context,
    entries: &[Entry],
    words: &raw::Path,
    values: &[raw::Expr],
) -> Result<Expr, NameFault>
    ensures { Gives resolved_expr result (walk.call context.now entries.now words.now values.now) }
{
    let path = path(alloc, context, entries, words)?;
    let args = args(alloc, context, entries, values)?;
    Ok(build::call(path, args))
}

/// An element of an array.
#[cycle(expr)]
fn index(
    alloc: Global,
    context: &Context,
    entries: &[Entry],
    words: &raw::Path,
    at: &raw::Expr,
) -> Result<Expr, NameFault>
    ensures { Gives resolved_expr result (walk.index context.now entries.now words.now at.now) }
{
    let path = path(alloc, context, entries, words)?;
    let at = expr(alloc, context, entries, at)?;
    let at = Box::new(alloc, at)?;
    Ok(Expr::Index { path, at })
}

/// A cast.
#[cycle(expr)]
fn cast(
    alloc: Global,
    context: &Context,
    entries: &[Entry],
    to: &raw::TypeRef,
    value: &raw::Expr,
    place: Place,
) -> Result<Expr, NameFault>
    ensures { Gives resolved_expr result (walk.cast context.now entries.now to.now value.now place) }
{
    let to = type_in(context, entries, to)?;
    let value = expr(alloc, context, entries, value)?;
    Ok(build::cast(to, Box::new(alloc, value)?, place))
}

/// A test of the class of a value.
#[cycle(expr)]
fn is(
    alloc: Global,
    context: &Context,
    entries: &[Entry],
    value: &raw::Expr,
    class: &Word,
    place: Place,
) -> Result<Expr, NameFault>
    ensures { Gives resolved_expr result (walk.is_class context.now entries.now value.now class.now place) }
{
    let value = expr(alloc, context, entries, value)?;
    let value = Box::new(alloc, value)?;
    let class = class_named(context, class)?;
    Ok(build::is(value, class, place))
}

/// A part of an expression, in a box.
#[cycle(expr)]
fn box_expr(
    alloc: Global,
    context: &Context,
    entries: &[Entry],
    raw: &Box<raw::Expr>,
) -> Result<Box<Expr>, NameFault>
    ensures { Gives (λ b. resolved_expr (box_value b)) result (walk.expr context.now entries.now (box_value raw.now)) }
{
    let found = expr(alloc, context, entries, raw)?;
    Ok(Box::new(alloc, found)?)
}

/// Arguments.
#[cycle(expr)]
pub fn args(
    alloc: Global,
    context: &Context,
    entries: &[Entry],
    raw: &[raw::Expr],
) -> Result<Vec<Expr>, NameFault>
    ensures { Gives (λ v. resolved_args v.items) result (walk.args context.now entries.now raw.now) }
{
    let mut found = Vec::new(alloc);
    for value in raw {
        let value = expr(alloc, context, entries, value)?;
        found.push(value)?;
    }
    Ok(found)
}
