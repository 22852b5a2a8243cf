//! Whether the arguments of a call suit what is wanted of them.
ghost use Rattle.std.specs.Prelude.{◌≡◌, length};
ghost use Rattle.ulam_tree.specs.Typed as typed_tree;
ghost use Rattle.ulam_tree.specs.TypedViews.{typed_form, typed_expr, typed_args};
ghost use Rattle.type_rules.specs.Rows as row;
ghost use Rattle.ulam_types.specs.Shown.{here};

use crate::lookup::assignable;
use crate::rows::{is_index, is_unsigned, kind_from, truth, unsigned_type, wide, width_of};
use crate::scope::Scope;
use sat_math::Kind;
use type_rules::Want;
use ulam_tree::resolved::{Built, Ty};
use ulam_tree::typed;
use ulam_tree::typed::Form;

/// The kind that a plain argument takes.
pub fn taken_want(want: Want) -> Kind
    ensures { result ≡ row.taken_want want }
{
    match want {
        Want::Value { ty } => kind_from(ty),
        Want::Site | Want::Bound => Kind::Int,
    }
}

/// Whether a typed expression is a number without `u`, in any number of brackets.
#[tactic(auto, using(crate::proofs::Args::call_not_plain))]
fn is_plain(form: &Form) -> bool
    ensures { result ≡ typed_tree.plain_form (typed_form form.now) }
{
    match form {
        Form::Number { unsigned, .. } => !*unsigned,
        Form::Group { inner, .. } => is_plain(&inner.form),
        _ => false,
    }
}

/// Whether a typed argument is what is wanted.
pub fn suits(scope: &Scope, want: Want, value: &typed::Expr) -> bool
    ensures { result ≡ row.suits (here scope.now) want (typed_expr value.now) }
{
    match want {
        Want::Value { ty } => assignable(scope, ty, value.ty),
        Want::Site => is_index(value.ty),
        Want::Bound => is_plain(&value.form) || is_unsigned(value.ty),
    }
}

/// Whether each argument suits its parameter.
pub fn all_suit(scope: &Scope, wants: &[Want], args: &[typed::Expr]) -> bool
    requires { length wants.now ≡ length args.now }
    ensures { result ≡ row.all_suit (here scope.now) wants.now (typed_args args.now) }
{
    for i in 0..args.len() {
        if !suits(scope, wants[i], &args[i]) {
            return false;
        }
    }
    true
}

/// The width of the result of `create`.
fn create_width(args: &[typed::Expr]) -> u8
    ensures { row.unsigned_type result ≡ row.built_result Built.Create (typed_args args.now) }
{
    match args {
        [] => 32,
        [first, ..] => wide(width_of(first.ty), 0),
    }
}

/// The type of a call of a built-in function.
pub fn built_type(call: Built, args: &[typed::Expr]) -> Ty
    ensures { result ≡ row.built_result call (typed_args args.now) }
{
    match call {
        Built::Swap => Ty::Nothing,
        Built::IsLive | Built::IsEmpty | Built::OneIn => truth(),
        Built::Create => unsigned_type(create_width(args)),
    }
}
