//! Resolved trees from their parts, as the plain trees that contracts see.
ghost use Rattle.std.specs.Prelude.{◌≡◌, option_map};
ghost use Rattle.ulam_tree.specs.Resolved as tree;
ghost use Rattle.ulam_tree.specs.ResolvedViews.{resolved_path, resolved_expr, resolved_args, resolved_cond, resolved_statement, resolved_part, resolved_body, boxed_expr, boxed_statement};

use crate::resolved::{Call, Cond, Expr, Named, Path, Statement};
use crate::{PairOp, PrefixOp};
use feast_base::Place;

/// A number, with `unsigned` if `u` is after it. The place is that of its first digit.
pub fn number(value: u32, unsigned: bool, place: Place) -> Expr
    ensures { resolved_expr result ≡ tree.number value unsigned place }
{
    Expr::Number {
        value,
        unsigned,
        place,
    }
}

/// `true` or `false`.
pub fn truth(value: bool, place: Place) -> Expr
    ensures { resolved_expr result ≡ tree.truth value place }
{
    Expr::Truth { value, place }
}

/// A call as an expression.
#[tactic(auto, using(crate::proofs::ResolvedRows::resolved_call_is))]
pub fn call(path: Path, args: Vec<Expr>) -> Expr
    ensures { resolved_expr result ≡ tree.calls (resolved_path path) (resolved_args args.items) }
{
    Expr::Call {
        call: Call { path, args },
    }
}

/// An expression in brackets. The place is that of the opening bracket.
pub fn group(inner: Box<Expr>, place: Place) -> Expr
    ensures { resolved_expr result ≡ tree.group (boxed_expr inner) place }
{
    Expr::Group { inner, place }
}

/// A cast of a value to a type. The place is that of the opening bracket.
pub fn cast(to: Named, value: Box<Expr>, place: Place) -> Expr
    ensures { resolved_expr result ≡ tree.cast to (boxed_expr value) place }
{
    Expr::Cast { to, value, place }
}

/// An operator in front of its operand. The place is that of the operator.
pub fn prefix(op: PrefixOp, value: Box<Expr>, place: Place) -> Expr
    ensures { resolved_expr result ≡ tree.prefix op (boxed_expr value) place }
{
    Expr::Prefix { op, value, place }
}

/// An operator between its operands. The place is that of the operator.
pub fn pair(op: PairOp, left: Box<Expr>, right: Box<Expr>, place: Place) -> Expr
    ensures { resolved_expr result ≡ tree.pair op (boxed_expr left) (boxed_expr right) place }
{
    Expr::Pair {
        op,
        left,
        right,
        place,
    }
}

/// A test of the class of a value. The place is that of `is`.
pub fn is(value: Box<Expr>, class: Named, place: Place) -> Expr
    ensures { resolved_expr result ≡ tree.is (boxed_expr value) class place }
{
    Expr::Is {
        value,
        class,
        place,
    }
}

/// Statements in braces.
#[tactic(auto, using(crate::proofs::ResolvedRows::resolved_block_is))]
pub fn block(body: Vec<Statement>) -> Statement
    ensures { resolved_statement result ≡ tree.block (resolved_body body.items) }
{
    Statement::Block { body }
}

/// An `if`, maybe with an `else`.
#[tactic(auto, using(crate::proofs::ResolvedRows::resolved_if_is))]
pub fn if_so(cond: Cond, yes: Box<Statement>, no: Option<Box<Statement>>) -> Statement
    ensures { resolved_statement result ≡ tree.if_so (resolved_cond cond) (boxed_statement yes) (resolved_part no) }
{
    Statement::If { cond, yes, no }
}

/// A `for`, with its first statement, its condition and its step where it has them.
pub fn for_all(
    first: Option<Box<Statement>>,
    cond: Option<Expr>,
    step: Option<Box<Statement>>,
    body: Box<Statement>,
) -> Statement
    ensures { resolved_statement result ≡ tree.for_all (resolved_part first) (option_map resolved_expr cond) (resolved_part step) (boxed_statement body) }
{
    Statement::For {
        first,
        cond,
        step,
        body,
    }
}
