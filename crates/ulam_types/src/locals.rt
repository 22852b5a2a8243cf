//! The types of a function's slots.
ghost use Rattle.std.specs.Prelude.{◌≡◌, ◌++◌, map, IfOk};
ghost use Rattle.ulam_tree.specs.Locals as locals;
ghost use Rattle.ulam_tree.specs.ResolvedViews.{resolved_statement, resolved_body, resolved_part, resolved_param};
ghost use Rattle.type_rules.specs.Programs.{param_type, slots_of};

use std::alloc::{AllocError, Global};
use ulam_tree::resolved::{Param, Statement, Ty};

/// Appends the types of the locals that a statement declares.
#[cycle(locals)]
#[tactic(auto, unfolding(ulam_tree::specs::Locals::locals))]
fn push_locals(raw: &Statement, out: &mut Vec<Ty>) -> Result<(), AllocError>
    ensures { IfOk result (λ _. out.new.items ≡ out.old.items ++ locals.locals (resolved_statement raw.now)) }
{
    match raw {
        Statement::Block { body } => push_body(body.as_slice(), out),
        Statement::If { yes, no, .. } => {
            push_locals(yes, out)?;
            push_part(no, out)
        }
        Statement::While { body, .. } => push_locals(body, out),
        Statement::For {
            first,
            step,
            body,
            ..
        } => {
            push_part(first, out)?;
            push_part(step, out)?;
            push_locals(body, out)
        }
        Statement::Declare { of, .. } => {
            out.push(of.ty)?;
            Ok(())
        }
        _ => Ok(()),
    }
}

/// Appends the types of the locals of an optional statement.
#[cycle(locals)]
#[tactic(auto, unfolding(ulam_tree::specs::Locals::locals))]
fn push_part(raw: &Option<Box<Statement>>, out: &mut Vec<Ty>) -> Result<(), AllocError>
    ensures { IfOk result (λ _. out.new.items ≡ out.old.items ++ locals.part_locals (resolved_part raw.now)) }
{
    match raw {
        None => Ok(()),
        Some(one) => push_locals(one, out),
    }
}

/// Appends the types of the locals of statements, in their order.
#[cycle(locals)]
fn push_body(raw: &[Statement], out: &mut Vec<Ty>) -> Result<(), AllocError>
    ensures { IfOk result (λ _. out.new.items ≡ out.old.items ++ locals.all_locals (resolved_body raw.now)) }
{
    for one in raw {
        push_locals(one, out)?;
    }
    Ok(())
}

/// The types of parameters, in their order.
fn param_types(alloc: Global, params: &[Param]) -> Result<Vec<Ty>, AllocError>
    ensures { IfOk result (λ v. v.items ≡ map param_type (map resolved_param params.now)) }
{
    let mut types = Vec::new(alloc);
    for param in params {
        types.push(param.of.ty)?;
    }
    Ok(types)
}

/// The types of a function's slots: its parameters, and then its locals.
pub fn slots(alloc: Global, params: &[Param], body: &[Statement]) -> Result<Vec<Ty>, AllocError>
    ensures { IfOk result (λ v. v.items ≡ slots_of (map resolved_param params.now) (resolved_body body.now)) }
{
    let mut types = param_types(alloc, params)?;
    push_body(body, &mut types)?;
    Ok(types)
}
