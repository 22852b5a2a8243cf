//! Typed expressions from their parts.
ghost use Rattle.std.specs.Prelude.{◌≡◌};
ghost use Rattle.sat_math.specs.declared.Kind.{Kind};
ghost use Rattle.ulam_tree.specs.Found.{value_or_fault};
ghost use Rattle.ulam_tree.specs.ResolvedViews.{resolved_path};
ghost use Rattle.ulam_tree.specs.Resolved as tree;
ghost use Rattle.ulam_tree.specs.Typed as typed_tree;
ghost use Rattle.ulam_tree.specs.TypedViews.{typed_expr, boxed_expr};
ghost use Rattle.type_rules.specs.Faults.{wrong_type};
ghost use Rattle.ulam_types.specs.Results.{call_view, GivesExpr};
ghost use Rattle.type_rules.specs.Rows as row;
ghost use Rattle.ulam_types.specs.Shown.{here, Gives};
ghost use Rattle.type_rules.specs.Walk as walk;

use crate::copy;
use crate::fault::TypeFault;
use crate::lookup::{instance_type, is_species, is_value, value_type};
use crate::rows::{pair_row, plain_fits, plain_type, truth, unsigned_type};
use crate::scope::Scope;
use feast_base::Place;
use sat_math::Kind;
use std::alloc::Global;
use ulam_tree::resolved::{Named, Path, Ty};
use ulam_tree::typed::Form;
use ulam_tree::{PairOp, typed, typed_build as build};

/// A number. `with_u` says whether it has a `u` at its end.
pub fn number(want: Kind, value: u32, with_u: bool, place: Place) -> Result<typed::Expr, TypeFault>
    ensures { Gives typed_expr result (walk.number want value with_u place) }
{
    if with_u {
        Ok(typed::Expr {
            form: Form::Number {
                value,
                unsigned: true,
                place,
            },
            ty: unsigned_type(32),
        })
    } else if plain_fits(want, value) {
        Ok(typed::Expr {
            form: Form::Number {
                value,
                unsigned: false,
                place,
            },
            ty: plain_type(want),
        })
    } else {
        Err(TypeFault::WrongType(place))
    }
}

/// Two operands with an operator between them.
pub fn pair(
    op: PairOp,
    left: Box<typed::Expr>,
    right: Box<typed::Expr>,
    plain_right: bool,
    place: Place,
) -> Result<typed::Expr, TypeFault>
    ensures { Gives typed_expr result (walk.pair_by op plain_right place (boxed_expr left, boxed_expr right)) }
{
    let ty = pair_row(place, op, plain_right, left.ty, right.ty)?;
    Ok(build::pair(op, left, right, place, ty))
}

/// The type, or `WrongType` if there is none.
pub fn type_or_fault(ty: Option<Ty>, place: Place) -> Result<Ty, TypeFault>
    ensures { Gives (λ x. x) result (value_or_fault ty (wrong_type place)) }
{
    match ty {
        None => Err(TypeFault::WrongType(place)),
        Some(ty) => Ok(ty),
    }
}

/// `true` or `false`.
pub fn truth_at(value: bool, place: Place) -> typed::Expr
    ensures { typed_expr result ≡ typed_tree.typed (typed_tree.truth value place) row.bool }
{
    typed::Expr {
        form: Form::Truth { value, place },
        ty: truth(),
    }
}

/// A path as an expression.
#[tactic(auto, unfolding(type_rules::specs::Walk::expr))]
pub fn value_at(alloc: Global, scope: &Scope, path: &Path) -> Result<typed::Expr, TypeFault>
    ensures { (want : Kind) → GivesExpr result scope.now want (tree.reads (resolved_path path.now)) }
{
    let ty = type_or_fault(value_type(scope, path.steps.as_slice()), path.place)?;
    let path = copy::path(alloc, path)?;
    Ok(typed::Expr {
        form: Form::Path { path },
        ty,
    })
}

/// The `instanceof` of a class.
#[tactic(auto, unfolding(type_rules::specs::Walk::expr))]
pub fn instance(scope: &Scope, class: Named) -> Result<typed::Expr, TypeFault>
    ensures { (want : Kind) → GivesExpr result scope.now want (tree.instance class) }
{
    if !is_species(scope, class.ty) {
        return Err(TypeFault::BadAs(class.place));
    }
    Ok(typed::Expr {
        form: Form::Instance { class },
        ty: instance_type(class.ty),
    })
}

/// A call whose value is used.
pub fn call_value(
    alloc: Global,
    scope: &Scope,
    path: &Path,
    args: Vec<typed::Expr>,
    ty: Ty,
) -> Result<typed::Expr, TypeFault>
    ensures { Gives typed_expr result (walk.call_value (here scope.now) (resolved_path path.now) (call_view (args, ty))) }
{
    if !is_value(scope, ty) {
        return Err(TypeFault::WrongType(path.place));
    }
    Ok(build::call(copy::path(alloc, path)?, args, ty))
}
