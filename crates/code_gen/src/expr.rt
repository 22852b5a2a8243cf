//! The pieces of expressions.
ghost use Rattle.std.specs.Prelude.{◌≡◌, ◌∷◌, ◌++◌, [], map, IfOk, OnOk, if◌then◌else◌};
ghost use Rattle.sat_math.specs.Operations.{of_bool};
ghost use Rattle.ulam_tree.specs.ResolvedViews.{resolved_param};
ghost use Rattle.ulam_tree.specs.TypedViews.{typed_expr, typed_args};
ghost use Rattle.ulam_meaning.specs.Programs.{param_types};
ghost use Rattle.ulam_meaning.specs.Expressions as meaning;
ghost use Rattle.code_gen.specs.Pieces.{none};
ghost use Rattle.code_gen.specs.Clipped.{pair_of};
ghost use Rattle.code_gen.specs.Made.{Makes, call_of, value_call};
ghost use Rattle.code_gen.specs.Scheme.{nowhere, if_nothing, expr_piece, args_piece};
ghost use Rattle.code_gen.specs.Seen.{program_of, scene_of, callee_of};
ghost use Rattle.code_gen.specs.Views.{piece_of};

use crate::access::{fit, load, load_at, nowhere};
use crate::classes::{Callee, Classes, Scene};
use crate::kinds::{arith_of, built_instr, number_type, pair_instr, prefix_instr, width_of};
use crate::lookup::{function, type_number};
use crate::make;
use crate::path::callee;
use crate::piece::Piece;
use feast_base::NoMemory;
use sat_math::NumType;
use stack_code::Instr;
use std::alloc::Global;
use ulam_tree::PairOp;
use ulam_tree::resolved::{Built, Param, Path, Ty};
use ulam_tree::typed::{Expr, Form};

/// Truth as a number.
fn truth(value: bool) -> i128
    ensures { result ≡ of_bool value }
{
    if value { 1 } else { 0 }
}

/// One more cast.
fn keep_cast(found: &mut Vec<Option<NumType>>, cast: Option<NumType>) -> Result<(), NoMemory>
    ensures { OnOk result (found.new.items ≡ found.old.items ++ cast ∷ []) }
{
    found.push(cast)?;
    Ok(())
}

/// What arguments are cast to: the types of the parameters.
fn casts(alloc: Global, params: &[Param]) -> Result<Vec<Option<NumType>>, NoMemory>
    ensures { IfOk result (λ v. v.items ≡ meaning.casts (param_types (map resolved_param params.now))) }
{
    let mut found = Vec::new(alloc);
    for param in params {
        keep_cast(&mut found, number_type(param.of.ty))?;
    }
    Ok(found)
}

/// An operator on the values of both sides. The right side of `&&` and `||` runs only if the left
/// one does not settle the value.
fn pair(alloc: Global, op: PairOp, ty: Ty, left: Piece, right: Piece) -> Result<Piece, NoMemory>
    ensures { IfOk result (λ q. piece_of q ≡ pair_of op ty (piece_of left) (piece_of right)) }
{
    match op {
        PairOp::Both => {
            let choice = make::pick(alloc, right, Piece::Plain(Instr::PushNum(0)))?;
            make::seq(alloc, left, choice)
        }
        PairOp::Either => {
            let choice = make::pick(alloc, right, Piece::Plain(Instr::PushNum(1)))?;
            make::three(alloc, left, Piece::Plain(Instr::NotB), choice)
        }
        _ => {
            let instr = pair_instr(op, arith_of(ty), width_of(ty));
            make::three(alloc, left, right, Piece::Plain(instr))
        }
    }
}

/// The first piece if a call gives nothing, otherwise the second.
pub fn if_nothing(classes: &Classes, target: Callee, so: Piece, other: Piece) -> Piece
    ensures { piece_of result ≡ if_nothing (program_of classes.now) (callee_of target) (piece_of so) (piece_of other) }
{
    match target {
        Callee::Called { key } => match function(classes, key.class, key.function).result {
            Ty::Nothing => so,
            _ => other,
        },
        Callee::Built { call } => match call {
            Built::Swap => so,
            _ => other,
        },
        Callee::Nothing => so,
    }
}

/// What follows all arguments that have a cast.
fn args_end(same: bool) -> Piece
    ensures { piece_of result ≡ (if same then none else nowhere) }
{
    if same { Piece::Nothing } else { nowhere() }
}

/// An expression.
#[cycle(expr)]
pub fn expr(alloc: Global, scene: &Scene, e: &Expr) -> Result<Piece, NoMemory>
    ensures { Makes result (expr_piece (scene_of scene.now) (typed_expr e.now)) }
{
    match &e.form {
        Form::Number { value, .. } => Ok(Piece::Plain(Instr::PushNum(i128::from(*value)))),
        Form::Truth { value, .. } => Ok(Piece::Plain(Instr::PushNum(truth(*value)))),
        Form::Path { path } => Ok(load(scene, path)),
        Form::Call { call: made } => value_call(alloc, scene, &made.path, made.args.as_slice()),
        Form::Index { path, at } => {
            let index = expr(alloc, scene, at)?;
            make::seq(alloc, index, load_at(scene, path))
        }
        Form::Instance { class } => {
            let kind = type_number(scene.classes, class.ty);
            Ok(Piece::Plain(Instr::PushAtom(kind)))
        }
        Form::Group { inner, .. } => expr(alloc, scene, inner),
        Form::Cast { to, value, .. } => {
            let value = expr(alloc, scene, value)?;
            make::seq(alloc, value, fit(number_type(to.ty)))
        }
        Form::Prefix { op, value, .. } => {
            let value = expr(alloc, scene, value)?;
            make::then_instr(alloc, value, prefix_instr(*op, e.ty))
        }
        Form::Pair {
            op,
            left,
            right,
            ..
        } => {
            let left = expr(alloc, scene, left)?;
            let right = expr(alloc, scene, right)?;
            pair(alloc, *op, e.ty, left, right)
        }
        Form::Is { value, class, .. } => {
            let value = expr(alloc, scene, value)?;
            let kind = type_number(scene.classes, class.ty);
            make::then_instr(alloc, value, Instr::IsKind(kind))
        }
    }
}

/// A call that gives a value.
#[cycle(expr)]
fn value_call(alloc: Global, scene: &Scene, path: &Path, list: &[Expr]) -> Result<Piece, NoMemory>
    ensures { Makes result (value_call scene.now path.now list.now) }
{
    let target = callee(scene, path);
    let made = call(alloc, scene, target, list)?;
    let end = if_nothing(scene.classes, target, nowhere(), Piece::Nothing);
    make::seq(alloc, made, end)
}

/// The arguments, and the call.
#[cycle(expr)]
pub fn call(alloc: Global, scene: &Scene, target: Callee, list: &[Expr]) -> Result<Piece, NoMemory>
    ensures { IfOk result (λ made. piece_of made ≡ call_of scene.now target list.now) }
{
    match target {
        Callee::Called { key } => {
            let function = function(scene.classes, key.class, key.function);
            let casts = casts(alloc, function.params)?;
            let list = args(alloc, scene, list, casts.as_slice())?;
            make::seq(alloc, list, Piece::Asks(key))
        }
        Callee::Built { call: Built::Swap } => {
            let list = args(alloc, scene, list, &[None, None])?;
            make::then_instr(alloc, list, Instr::Swap)
        }
        Callee::Built { call } => {
            let list = args(alloc, scene, list, &[None])?;
            make::then_instr(alloc, list, built_instr(call))
        }
        Callee::Nothing => Ok(nowhere()),
    }
}

/// Arguments from the last one on, each with its cast.
#[cycle(expr)]
fn args(
    alloc: Global,
    scene: &Scene,
    list: &[Expr],
    casts: &[Option<NumType>],
) -> Result<Piece, NoMemory>
    ensures { Makes result (args_piece (scene_of scene.now) (typed_args list.now) casts.now) }
{
    let both = list.len().min(casts.len());
    let mut piece = args_end(list.len() == casts.len());
    for i in (0..both).rev() {
        let value = expr(alloc, scene, &list[i])?;
        piece = make::three(alloc, value, fit(casts[i]), piece)?;
    }
    Ok(piece)
}
