//! Trees of the parser from their parts, as the plain trees that contracts see.
ghost use Rattle.std.specs.Prelude.{◌≡◌, option_map};
ghost use Rattle.ulam_tree.specs.Raw as tree;
ghost use Rattle.ulam_tree.specs.RawViews.{type_of, word_of, path_of, expr_of, args_list, cond_of, statement_of, part_alone, body_list, boxed_expr, boxed_statement};

use crate::{Call, Cond, Expr, PairOp, Path, PrefixOp, Statement, TypeRef, Word};
use feast_base::Place;

/// A number, with `unsigned` if `u` is after it. The place is that of its first digit.
pub fn number(value: u32, unsigned: bool, place: Place) -> Expr
    ensures { expr_of result ≡ tree.number value unsigned place }
{
    Expr::Number {
        value,
        unsigned,
        place,
    }
}

/// `true` or `false`.
pub fn truth(value: bool, place: Place) -> Expr
    ensures { expr_of result ≡ tree.truth value place }
{
    Expr::Truth { value, place }
}

/// A call as an expression.
#[tactic(auto, using(crate::proofs::RawRows::call_is))]
pub fn call(path: Path, args: Vec<Expr>) -> Expr
    ensures { expr_of result ≡ tree.calls (path_of path) (args_list args.items) }
{
    Expr::Call {
        call: Call { path, args },
    }
}

/// An expression in brackets. The place is that of the opening bracket.
pub fn group(inner: Box<Expr>, place: Place) -> Expr
    ensures { expr_of result ≡ tree.group (boxed_expr inner) place }
{
    Expr::Group { inner, place }
}

/// A cast of a value to a type. The place is that of the opening bracket.
pub fn cast(to: TypeRef, value: Box<Expr>, place: Place) -> Expr
    ensures { expr_of result ≡ tree.cast (type_of to) (boxed_expr value) place }
{
    Expr::Cast { to, value, place }
}

/// An operator in front of its operand. The place is that of the operator.
pub fn prefix(op: PrefixOp, value: Box<Expr>, place: Place) -> Expr
    ensures { expr_of result ≡ tree.prefix op (boxed_expr value) place }
{
    Expr::Prefix { op, value, place }
}

/// An operator between its operands. The place is that of the operator.
pub fn pair(op: PairOp, left: Box<Expr>, right: Box<Expr>, place: Place) -> Expr
    ensures { expr_of result ≡ tree.pair op (boxed_expr left) (boxed_expr right) place }
{
    Expr::Pair {
        op,
        left,
        right,
        place,
    }
}

/// A test of the class of a value. The place is that of `is`.
pub fn is(value: Box<Expr>, class: Word, place: Place) -> Expr
    ensures { expr_of result ≡ tree.is (boxed_expr value) (word_of class) place }
{
    Expr::Is {
        value,
        class,
        place,
    }
}

/// Statements in braces.
#[tactic(auto, using(crate::proofs::RawRows::block_is))]
pub fn block(body: Vec<Statement>) -> Statement
    ensures { statement_of result ≡ tree.block (body_list body.items) }
{
    Statement::Block { body }
}

/// An `if`, maybe with an `else`.
pub fn if_so(cond: Cond, yes: Box<Statement>, no: Option<Box<Statement>>) -> Statement
    ensures { statement_of result ≡ tree.if_so (cond_of cond) (boxed_statement yes) (part_alone no) }
{
    Statement::If { cond, yes, no }
}

/// A `for`, with its first statement, its condition and its step where it has them.
#[tactic(auto, using(crate::proofs::RawRows::for_is))]
pub fn for_all(
    first: Option<Box<Statement>>,
    cond: Option<Expr>,
    step: Option<Box<Statement>>,
    body: Box<Statement>,
) -> Statement
    ensures { statement_of result ≡ tree.for_all (part_alone first) (option_map expr_of cond) (part_alone step) (boxed_statement body) }
{
    Statement::For {
        first,
        cond,
        step,
        body,
    }
}
