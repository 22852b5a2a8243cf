//! Parts of statements.
ghost use Rattle.std.specs.Prelude.{◌≡◌, ◌≤◌, ◌+◌, ℕ, map, length, IfOk, OnOk, OnErr, Err, option_map, IsTrue};
ghost use Rattle.std.specs.List.{list_any};
ghost use Rattle.ulam_names.specs.declared.fault.NameFault.TheVariants as NameFault;
ghost use Rattle.ulam_names.specs.Scopes.{is_named, is_element, inside_local};
ghost use Rattle.ulam_names.specs.BodyWalk as walk;
ghost use Rattle.ulam_names.specs.Shown.{head_of, scope_of, entries_of, Gives, IsAsFound, AreEntries, IsFront, AddsEntry, is_simple};
ghost use Rattle.feast_base.specs.declared.limits.TheConstants.{MOST_PARAMS};
ghost use Rattle.ulam_names.specs.declared.limits.TheConstants.{MOST_LOCALS};
ghost use Rattle.ulam_tree.specs.declared.raw.Statement.TheVariants.{Declare};
ghost use Rattle.ulam_tree.specs.RawViews.{statement_of};
ghost use Rattle.ulam_tree.specs.ResolvedViews.{resolved_expr, resolved_left, resolved_cond, resolved_statement};

use crate::expr::{args, expr};
use crate::fault::NameFault;
use crate::half::HalfClass;
use crate::limits::MOST_LOCALS;
use crate::path::{one_word, path};
use crate::scope::{Context, Entry};
use crate::types::{class_named, type_in};
use std::alloc::Global;
use ulam_tree as raw;
use ulam_tree::Word;
use ulam_tree::resolved::{Call, Cond, Expr, Left, Statement, Ty};

/// An expression, if there is one.
pub fn maybe_expr(
    alloc: Global,
    context: &Context,
    entries: &[Entry],
    raw: &Option<raw::Expr>,
) -> Result<Option<Expr>, NameFault>
    ensures { Gives (λ x. option_map resolved_expr x) result (walk.maybe_expr context.now entries.now raw.now) }
{
    match raw {
        None => Ok(None),
        Some(raw) => Ok(Some(expr(alloc, context, entries, raw)?)),
    }
}

/// What is assigned to.
fn left_side(
    alloc: Global,
    context: &Context,
    entries: &[Entry],
    raw: &raw::Left,
) -> Result<Left, NameFault>
    ensures { Gives resolved_left result (walk.left_side context.now entries.now raw.now) }
{
    let place = path(alloc, context, entries, &raw.path)?;
    match &raw.index {
        None => Ok(Left {
            path: place,
            index: None,
        }),
        Some(index) => {
            let index = expr(alloc, context, entries, index)?;
            let index = Some(Box::new(alloc, index)?);
            Ok(Left { path: place, index })
        }
    }
}

/// Whether an entry has a name.
fn has(entries: &[Entry], name: &[u8]) -> bool
    ensures { result ≡ list_any (is_named name.now) (entries_of entries.now) }
{
    for entry in entries {
        if name == entry.name {
            return true;
        }
    }
    false
}

/// Whether a type is an element.
fn is_element(heads: &[HalfClass], ty: Ty) -> bool
    ensures { result ≡ is_element (map head_of heads.now) ty }
{
    match ty {
        Ty::Class { class } => match heads.get(class as usize) {
            Some(head) => !head.quark,
            None => false,
        },
        _ => false,
    }
}

/// The type in which a name after a local and a dot is looked up.
pub fn inside_local(heads: &[HalfClass], ty: Ty) -> Ty
    ensures { result ≡ inside_local (map head_of heads.now) ty }
{
    match ty {
        Ty::Class { class } => {
            if is_element(heads, ty) {
                Ty::Class { class }
            } else {
                Ty::Nothing
            }
        }
        other => other,
    }
}

/// Refuses a name that may not be declared: no slot is left, or the innermost scope has it.
fn may_declare(
    context: &Context,
    entries: &[Entry],
    from: usize,
    slot: u32,
    word: &Word,
) -> Result<(), NameFault>
    requires from { from ≤ length entries.now }
    requires params { context.now.params ≤ MOST_PARAMS }
    ensures gives { IsAsFound result (walk.may_declare context.now entries.now from slot word.now) }
    ensures room { OnOk result (slot + 1 ≤ context.now.params + MOST_LOCALS) }
{
    if slot >= context.params + MOST_LOCALS {
        return Err(NameFault::TooMany(word.place));
    }
    if has(&entries[from..], word.name.bytes()) {
        return Err(NameFault::DuplicateName(word.place));
    }
    Ok(())
}

/// What an `if` asks.
pub fn cond(
    alloc: Global,
    context: &Context,
    entries: &[Entry],
    raw: &raw::Cond,
) -> Result<Cond, NameFault>
    ensures { Gives resolved_cond result (walk.cond context.now entries.now raw.now) }
{
    match raw {
        raw::Cond::Seen { word, class } => {
            let path = one_word(alloc, context, entries, word)?;
            let class = class_named(context, class)?;
            Ok(Cond::Seen { path, class })
        }
        raw::Cond::Test { value } => Ok(Cond::Test {
            value: expr(alloc, context, entries, value)?,
        }),
    }
}

/// Adds the name that a condition shows as an element to the scope.
pub fn show<'a>(
    context: &Context<'_, 'a>,
    entries: &mut Vec<Entry<'a>>,
    raw: &'a raw::Cond,
    found: &Cond,
) -> Result<(), NameFault>
    ensures shown { (from : ℕ) → OnOk result (AreEntries entries.new (walk.branch_scope context.now entries.old from raw.now found.now)) }
    ensures kept { OnOk result (IsFront entries.old entries.new) }
    ensures memory { OnErr result (result ≡ Err NameFault.NoMemory) }
{
    if let raw::Cond::Seen { word, .. } = raw {
        if let Cond::Seen { class, .. } = found {
            if is_element(context.heads, class.ty) {
                entries.push(Entry {
                    name: word.name.bytes(),
                    slot: None,
                    inside: class.ty,
                })?;
            }
        }
    }
    Ok(())
}

/// A declaration, which adds its local to the scope.
pub fn declare<'a>(
    alloc: Global,
    context: &Context<'_, 'a>,
    entries: &mut Vec<Entry<'a>>,
    from: usize,
    slot: u32,
    of: &raw::TypeRef,
    word: &'a Word,
    value: &Option<raw::Expr>,
) -> Result<Statement, NameFault>
    requires params { context.now.params ≤ MOST_PARAMS }
    requires from { from ≤ length entries.old.items }
    ensures gives { Gives resolved_statement result (walk.statement context.now entries.old from slot (Declare of.now word.now value.now)) }
    ensures few { OnOk result (slot + 1 ≤ context.now.params + MOST_LOCALS) }
    ensures scope { IfOk result (λ x. AddsEntry entries.old entries.new (walk.local context.now slot word.now x)) }
    ensures kept { OnOk result (IsFront entries.old entries.new) }
{
    let of = type_in(context, entries.as_slice(), of)?;
    may_declare(context, entries.as_slice(), from, slot, word)?;
    let value = maybe_expr(alloc, context, entries.as_slice(), value)?;
    entries.push(Entry {
        name: word.name.bytes(),
        slot: Some(slot),
        inside: inside_local(context.heads, of.ty),
    })?;
    Ok(Statement::Declare {
        of,
        slot,
        place: word.place,
        value,
    })
}

/// A statement that holds no other statement and declares nothing.
pub fn simple(
    alloc: Global,
    context: &Context,
    entries: &[Entry],
    raw: &raw::Statement,
) -> Result<Statement, NameFault>
    requires { IsTrue (is_simple (statement_of raw.now)) }
    ensures { (from n : ℕ) → Gives resolved_statement result (walk.statement_in context.now (scope_of entries.now from) n raw.now) }
{
    match raw {
        raw::Statement::Return { place, value } => Ok(Statement::Return {
            place: *place,
            value: maybe_expr(alloc, context, entries, value)?,
        }),
        raw::Statement::Break { place } => Ok(Statement::Break { place: *place }),
        raw::Statement::Continue { place } => Ok(Statement::Continue { place: *place }),
        raw::Statement::Assign {
            left: to,
            op,
            value,
        } => {
            let to = left_side(alloc, context, entries, to)?;
            let value = expr(alloc, context, entries, value)?;
            Ok(Statement::Assign {
                left: to,
                op: *op,
                value,
            })
        }
        raw::Statement::Count { left: to, up } => Ok(Statement::Count {
            left: left_side(alloc, context, entries, to)?,
            up: *up,
        }),
        raw::Statement::Call { call } => {
            let words = path(alloc, context, entries, &call.path)?;
            let args = args(alloc, context, entries, call.args.as_slice())?;
            Ok(Statement::Call {
                call: Call { path: words, args },
            })
        }
        _ => Ok(Statement::Nothing),
    }
}
