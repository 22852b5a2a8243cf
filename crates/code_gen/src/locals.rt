//! The types of a function's slots.
ghost use Rattle.std.specs.Prelude.{◌≡◌, ◌++◌, ◌∷◌, [], map, IfOk, OnOk};
ghost use Rattle.ulam_tree.specs.Locals as locals;
ghost use Rattle.ulam_tree.specs.TypedViews.{typed_statement, typed_body, typed_part};
ghost use Rattle.ulam_tree.specs.ResolvedViews.{resolved_param};
ghost use Rattle.ulam_meaning.specs.Programs.{slot_types, param_types};
ghost use Rattle.code_gen.specs.Scheme.{operand_of};
ghost use Rattle.code_gen.specs.Seen.{function_of};

use crate::classes::Function;
use crate::kinds::operand_of;
use feast_base::NoMemory;
use stack_code::Operand;
use std::alloc::Global;
use ulam_tree::resolved::{Param, Ty};
use ulam_tree::typed::Statement;

/// One more type.
fn keep(types: &mut Vec<Ty>, ty: Ty) -> Result<(), NoMemory>
    ensures { OnOk result (types.new.items ≡ types.old.items ++ ty ∷ []) }
{
    types.push(ty)?;
    Ok(())
}

/// Appends the types of the locals that a statement declares.
#[cycle(locals)]
#[tactic(auto, unfolding(ulam_tree::specs::Locals::locals))]
fn push_locals(one: &Statement, types: &mut Vec<Ty>) -> Result<(), NoMemory>
    ensures { OnOk result (types.new.items ≡ types.old.items ++ locals.locals (typed_statement one.now)) }
{
    match one {
        Statement::Block { body } => push_body(body.as_slice(), types),
        Statement::If { yes, no, .. } => {
            push_locals(yes, types)?;
            push_part(no, types)
        }
        Statement::While { body, .. } => push_locals(body, types),
        Statement::For {
            first,
            step,
            body,
            ..
        } => {
            push_part(first, types)?;
            push_part(step, types)?;
            push_locals(body, types)
        }
        Statement::Declare { of, .. } => keep(types, of.ty),
        Statement::Call { .. } => Ok(()),
        Statement::Nothing
        | Statement::Return { .. }
        | Statement::Break { .. }
        | Statement::Continue { .. }
        | Statement::Assign { .. }
        | Statement::Count { .. } => Ok(()),
    }
}

/// The same for an optional statement.
#[cycle(locals)]
#[tactic(auto, unfolding(ulam_tree::specs::Locals::locals))]
fn push_part(part: &Option<Box<Statement>>, types: &mut Vec<Ty>) -> Result<(), NoMemory>
    ensures { OnOk result (types.new.items ≡ types.old.items ++ locals.part_locals (typed_part part.now)) }
{
    match part {
        None => Ok(()),
        Some(one) => push_locals(one, types),
    }
}

/// The same for statements.
#[cycle(locals)]
fn push_body(list: &[Statement], types: &mut Vec<Ty>) -> Result<(), NoMemory>
    ensures { OnOk result (types.new.items ≡ types.old.items ++ locals.all_locals (typed_body list.now)) }
{
    for one in list {
        push_locals(one, types)?;
    }
    Ok(())
}

/// Appends the types of parameters.
fn push_params(params: &[Param], types: &mut Vec<Ty>) -> Result<(), NoMemory>
    ensures { OnOk result (types.new.items ≡ types.old.items ++ param_types (map resolved_param params.now)) }
{
    for param in params {
        keep(types, param.of.ty)?;
    }
    Ok(())
}

/// The types of a function's slots: its parameters, and then its locals.
pub fn slot_types(alloc: Global, function: Function) -> Result<Vec<Ty>, NoMemory>
    ensures { IfOk result (λ v. v.items ≡ slot_types (function_of function.entry)) }
{
    let mut types = Vec::new(alloc);
    push_params(function.params, &mut types)?;
    push_body(function.body, &mut types)?;
    Ok(types)
}

/// One more operand.
fn keep_operand(operands: &mut Vec<Operand>, operand: Operand) -> Result<(), NoMemory>
    ensures { OnOk result (operands.new.items ≡ operands.old.items ++ operand ∷ []) }
{
    operands.push(operand)?;
    Ok(())
}

/// What slots of these types hold.
pub fn operands(alloc: Global, types: &[Ty]) -> Result<Vec<Operand>, NoMemory>
    ensures { IfOk result (λ v. v.items ≡ map operand_of types.now) }
{
    let mut operands = Vec::new(alloc);
    for ty in types {
        keep_operand(&mut operands, operand_of(*ty))?;
    }
    Ok(operands)
}
