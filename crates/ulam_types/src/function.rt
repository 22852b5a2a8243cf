//! Types of functions.
ghost use Rattle.std.specs.Prelude.{◌≡◌, map, IfOk, IfErr};
ghost use Rattle.ulam_tree.specs.ResolvedViews.{resolved_param, resolved_body, resolved_member};
ghost use Rattle.ulam_tree.specs.TypedViews.{typed_member};
ghost use Rattle.type_rules.specs.Programs as walk;
ghost use Rattle.ulam_types.specs.Results.{body_view};
ghost use Rattle.ulam_types.specs.Shown.{sigs_view, here, Gives};
ghost use Rattle.ulam_types.specs.declared.fault.TypeFault.TheVariants.{NoMemory};

use crate::copy;
use crate::ends::all_complete;
use crate::fault::TypeFault;
use crate::locals::slots;
use crate::lookup::is_value;
use crate::rows::is_void;
use crate::scope::{ClassSig, Scope};
use crate::statement::body;
use feast_base::Place;
use std::alloc::Global;
use ulam_tree::resolved::{Member, Named, Param, Statement};
use ulam_tree::typed;

/// Refuses a parameter whose type has no values.
fn header(scope: &Scope, params: &[Param]) -> Result<(), TypeFault>
    ensures { Gives (λ x. x) result (walk.params (here scope.now) (map resolved_param params.now)) }
{
    for param in params {
        if !is_value(scope, param.of.ty) {
            return Err(TypeFault::WrongType(param.of.place));
        }
    }
    Ok(())
}

/// Checks a function's result, its parameters and its body. `place` is that of its name.
fn function(
    alloc: Global,
    scope: &Scope,
    of: Named,
    place: Place,
    params: &[Param],
    raw: &[Statement],
) -> Result<Vec<typed::Statement>, TypeFault>
    ensures { Gives body_view result (walk.function (here scope.now) of place (map resolved_param params.now) (resolved_body raw.now)) }
{
    if !(is_value(scope, of.ty) || is_void(of.ty)) {
        return Err(TypeFault::WrongType(of.place));
    }
    header(scope, params)?;
    let found = body(alloc, scope, raw)?;
    if is_void(of.ty) || !all_complete(raw) {
        Ok(found)
    } else {
        Err(TypeFault::MissingReturn(place))
    }
}

/// Parameters with names of their own.
fn copy_params(alloc: Global, params: &[Param]) -> Result<Vec<Param>, TypeFault>
    ensures params { IfOk result (λ v. map resolved_param v.items ≡ map resolved_param params.now) }
    ensures memory { IfErr result (λ e. e ≡ NoMemory) }
{
    let mut copies = Vec::new(alloc);
    for param in params {
        copies.push(Param {
            of: param.of,
            word: copy::word(alloc, &param.word)?,
        })?;
    }
    Ok(copies)
}

/// A member of a class.
pub fn member(
    alloc: Global,
    sigs: &[ClassSig],
    class: u32,
    raw: &Member,
) -> Result<typed::Member, TypeFault>
    ensures { Gives typed_member result (walk.member (sigs_view sigs.now) class (resolved_member raw.now)) }
{
    match raw {
        Member::Field { of, word, length } => Ok(typed::Member::Field {
            of: *of,
            word: copy::word(alloc, word)?,
            length: *length,
        }),
        Member::Function {
            of,
            word,
            params,
            body,
        } => {
            let params = params.as_slice();
            let body = body.as_slice();
            let slots = slots(alloc, params, body)?;
            let scope = Scope {
                classes: sigs,
                class,
                slots: slots.as_slice(),
                result: of.ty,
                looped: false,
            };
            let body = function(alloc, &scope, *of, word.place, params, body)?;
            Ok(typed::Member::Function {
                of: *of,
                word: copy::word(alloc, word)?,
                params: copy_params(alloc, params)?,
                body,
            })
        }
    }
}
