//! Classes as expressions see them, without the bodies of functions.
ghost use Rattle.std.specs.Prelude.{◌≡◌, map, IfOk};
ghost use Rattle.ulam_tree.specs.ResolvedViews.{resolved_class, resolved_member, resolved_param};
ghost use Rattle.type_rules.specs.Programs as walk;
ghost use Rattle.ulam_types.specs.Shown.{class_view, function_view, sigs_view};

use crate::scope::{ClassSig, FunctionSig};
use std::alloc::{AllocError, Global};
use type_rules::{FieldSig, Want};
use ulam_tree::resolved::{Class, Member, Param};

/// What is wanted of the arguments of a function.
fn wants(alloc: Global, params: &[Param]) -> Result<Vec<Want>, AllocError>
    ensures { IfOk result (λ v. v.items ≡ map walk.want_of (map resolved_param params.now)) }
{
    let mut found = Vec::new(alloc);
    for param in params {
        found.push(Want::Value { ty: param.of.ty })?;
    }
    Ok(found)
}

/// The data members among members.
fn field_sigs(alloc: Global, members: &[Member]) -> Result<Vec<FieldSig>, AllocError>
    ensures { IfOk result (λ v. v.items ≡ walk.fields_of (map resolved_member members.now)) }
{
    let mut found = Vec::new(alloc);
    for member in members {
        if let Member::Field { of, length, .. } = member {
            found.push(FieldSig {
                ty: of.ty,
                length: *length,
            })?;
        }
    }
    Ok(found)
}

/// The functions among members.
fn function_sigs(alloc: Global, members: &[Member]) -> Result<Vec<FunctionSig>, AllocError>
    ensures { IfOk result (λ v. map function_view v.items ≡ walk.functions_of (map resolved_member members.now)) }
{
    let mut found = Vec::new(alloc);
    for member in members {
        if let Member::Function { of, params, .. } = member {
            found.push(FunctionSig {
                result: of.ty,
                wants: wants(alloc, params.as_slice())?,
            })?;
        }
    }
    Ok(found)
}

/// The signature of a class.
fn class_sig(alloc: Global, class: &Class) -> Result<ClassSig, AllocError>
    ensures { IfOk result (λ s. class_view s ≡ walk.class_sig (resolved_class class.now)) }
{
    let members = class.members.as_slice();
    Ok(ClassSig {
        quark: class.quark,
        fields: field_sigs(alloc, members)?,
        functions: function_sigs(alloc, members)?,
    })
}

/// All classes, as expressions see them.
pub fn class_sigs(alloc: Global, classes: &[Class]) -> Result<Vec<ClassSig>, AllocError>
    ensures { IfOk result (λ v. sigs_view v.items ≡ map walk.class_sig (map resolved_class classes.now)) }
{
    let mut found = Vec::new(alloc);
    for class in classes {
        found.push(class_sig(alloc, class)?)?;
    }
    Ok(found)
}
