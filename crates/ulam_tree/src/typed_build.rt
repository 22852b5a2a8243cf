//! Typed trees from their parts, as the plain trees that contracts see.
ghost use Rattle.std.specs.Prelude.{◌≡◌, option_map};
ghost use Rattle.std.specs.Box.{box_value};
ghost use Rattle.ulam_tree.specs.ResolvedViews.{resolved_path};
ghost use Rattle.ulam_tree.specs.Typed as tree;
ghost use Rattle.ulam_tree.specs.TypedViews.{typed_expr, typed_args, typed_cond, typed_statement, typed_body, typed_part, boxed_expr, boxed_statement};

use crate::typed::{Call, Cond, Expr, Form, Named, Path, Statement, Ty};
use crate::{PairOp, PrefixOp};
use feast_base::Place;

/// A call as an expression, of a type.
pub fn call(path: Path, args: Vec<Expr>, ty: Ty) -> Expr
    ensures { typed_expr result ≡ tree.typed (tree.calls (resolved_path path) (typed_args args.items)) ty }
{
    Expr {
        form: Form::Call {
            call: Call { path, args },
        },
        ty,
    }
}

/// An element of an array, of a type.
pub fn index(path: Path, at: Box<Expr>, ty: Ty) -> Expr
    ensures { typed_expr result ≡ tree.typed (tree.index (resolved_path path) (boxed_expr at)) ty }
{
    Expr {
        form: Form::Index { path, at },
        ty,
    }
}

/// An expression in brackets, which has the type of what they hold. The place is that of the
/// opening bracket.
pub fn group(inner: Box<Expr>, place: Place) -> Expr
    ensures { typed_expr result ≡ tree.typed (tree.group (boxed_expr inner) place) (box_value inner).ty }
{
    let ty = inner.ty;
    Expr {
        form: Form::Group { inner, place },
        ty,
    }
}

/// A cast of a value to a type. The place is that of the opening bracket.
pub fn cast(to: Named, value: Box<Expr>, place: Place, ty: Ty) -> Expr
    ensures { typed_expr result ≡ tree.typed (tree.cast to (boxed_expr value) place) ty }
{
    Expr {
        form: Form::Cast { to, value, place },
        ty,
    }
}

/// An operator in front of its operand, of a type. The place is that of the operator.
pub fn prefix(op: PrefixOp, value: Box<Expr>, place: Place, ty: Ty) -> Expr
    ensures { typed_expr result ≡ tree.typed (tree.prefix op (boxed_expr value) place) ty }
{
    Expr {
        form: Form::Prefix { op, value, place },
        ty,
    }
}

/// An operator between its operands, of a type. The place is that of the operator.
pub fn pair(op: PairOp, left: Box<Expr>, right: Box<Expr>, place: Place, ty: Ty) -> Expr
    ensures { typed_expr result ≡ tree.typed (tree.pair op (boxed_expr left) (boxed_expr right) place) ty }
{
    Expr {
        form: Form::Pair {
            op,
            left,
            right,
            place,
        },
        ty,
    }
}

/// A test of the class of a value, of a type. The place is that of `is`.
pub fn is(value: Box<Expr>, class: Named, place: Place, ty: Ty) -> Expr
    ensures { typed_expr result ≡ tree.typed (tree.is (boxed_expr value) class place) ty }
{
    Expr {
        form: Form::Is {
            value,
            class,
            place,
        },
        ty,
    }
}

/// Statements in braces.
pub fn block(body: Vec<Statement>) -> Statement
    ensures { typed_statement result ≡ tree.block (typed_body body.items) }
{
    Statement::Block { body }
}

/// An `if`, maybe with an `else`.
pub fn if_so(cond: Cond, yes: Box<Statement>, no: Option<Box<Statement>>) -> Statement
    ensures { typed_statement result ≡ tree.if_so (typed_cond cond) (boxed_statement yes) (typed_part no) }
{
    Statement::If { cond, yes, no }
}

/// A `for`, with its first statement, its condition and its step where it has them.
#[tactic(auto, using(crate::proofs::TypedRows::typed_for_is))]
pub fn for_all(
    first: Option<Box<Statement>>,
    cond: Option<Expr>,
    step: Option<Box<Statement>>,
    body: Box<Statement>,
) -> Statement
    ensures { typed_statement result ≡ tree.for_all (typed_part first) (option_map typed_expr cond) (typed_part step) (boxed_statement body) }
{
    Statement::For {
        first,
        cond,
        step,
        body,
    }
}

/// A call as a statement.
pub fn does(path: Path, args: Vec<Expr>) -> Statement
    ensures { typed_statement result ≡ tree.does (resolved_path path) (typed_args args.items) }
{
    Statement::Call {
        call: Call { path, args },
    }
}
