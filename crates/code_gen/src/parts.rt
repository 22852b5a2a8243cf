//! The pieces of parts of statements.
ghost use Rattle.std.specs.Prelude.{None, option_map};
ghost use Rattle.ulam_tree.specs.Typed as tree;
ghost use Rattle.ulam_tree.specs.TypedViews.{typed_expr, typed_cond, typed_left};
ghost use Rattle.code_gen.specs.Made.{Makes, MakesWith, MakesWithBoth, whole_at, item_at, target_of, assignment, loop_of, bare_call};
ghost use Rattle.code_gen.specs.Scheme.{cond_piece, declare_piece, give_piece, return_piece, assign_piece, statement_piece};
ghost use Rattle.code_gen.specs.Seen.{scene_of};

use crate::access::{byte, fit, load, load_at, store, store_at, type_at};
use crate::classes::Scene;
use crate::expr::{call, expr, if_nothing};
use crate::kinds::{answer_of, blank_instr, count_op, number_type, update_instr, width_of};
use crate::lookup::type_number;
use crate::make;
use crate::path::callee;
use crate::piece::Piece;
use feast_base::NoMemory;
use stack_code::{Answer, Instr};
use std::alloc::Global;
use ulam_tree::PairOp;
use ulam_tree::resolved::{Path, Ty};
use ulam_tree::typed::{Cond, Expr, Left};

/// A condition. `as` asks for the type of the atom in a local.
pub fn cond(alloc: Global, scene: &Scene, cond: &Cond) -> Result<Piece, NoMemory>
    ensures { Makes result (cond_piece (scene_of scene.now) (typed_cond cond.now)) }
{
    match cond {
        Cond::Seen { path, class } => {
            let kind = type_number(scene.classes, class.ty);
            make::then_instr(alloc, load(scene, path), Instr::IsKind(kind))
        }
        Cond::Test { value } => expr(alloc, scene, value),
    }
}

/// A declaration: its value, or without one the type's default, is put into the slot.
pub fn declare(
    alloc: Global,
    scene: &Scene,
    ty: Ty,
    slot: u32,
    value: &Option<Expr>,
) -> Result<Piece, NoMemory>
    ensures { Makes result (declare_piece (scene_of scene.now) ty slot (option_map typed_expr value.now)) }
{
    let keep = Instr::StoreLocal(byte(slot));
    match value {
        None => make::then_instr(alloc, Piece::Plain(blank_instr(scene.classes, ty)), keep),
        Some(value) => {
            let value = expr(alloc, scene, value)?;
            make::three(alloc, value, fit(number_type(ty)), Piece::Plain(keep))
        }
    }
}

/// The end of a function without a value.
fn end(alloc: Global, scene: &Scene) -> Result<Piece, NoMemory>
    ensures { Makes result (return_piece (scene_of scene.now) None) }
{
    match answer_of(scene.result) {
        Answer::Nothing => Ok(Piece::Leaves),
        Answer::Number => make::seq(alloc, Piece::Plain(Instr::PushNum(0)), Piece::Gives),
        Answer::Atom => {
            let kind = type_number(scene.classes, scene.result);
            make::seq(alloc, Piece::Plain(Instr::PushAtom(kind)), Piece::Gives)
        }
    }
}

/// The end of a function with the value on top, which a `Void` one drops.
fn give(alloc: Global, ty: Ty) -> Result<Piece, NoMemory>
    ensures { Makes result (give_piece ty) }
{
    match ty {
        Ty::Nothing => make::seq(alloc, Piece::Plain(Instr::Pop), Piece::Leaves),
        _ => Ok(Piece::Gives),
    }
}

/// A `return`.
pub fn give_back(alloc: Global, scene: &Scene, value: &Option<Expr>) -> Result<Piece, NoMemory>
    ensures { Makes result (return_piece (scene_of scene.now) (option_map typed_expr value.now)) }
{
    match value {
        None => end(alloc, scene),
        Some(value) => {
            let value = expr(alloc, scene, value)?;
            let last = give(alloc, scene.result)?;
            make::three(alloc, value, fit(number_type(scene.result)), last)
        }
    }
}

/// What is assigned to a path without an index.
fn assign_path(
    alloc: Global,
    scene: &Scene,
    path: &Path,
    op: Option<PairOp>,
    width: u8,
    value: Piece,
) -> Result<Piece, NoMemory>
    ensures { MakesWith result value (assign_piece (scene_of scene.now) (whole_at scene.now path.now) op width) }
{
    let last = store(alloc, scene, path)?;
    match op {
        None => make::seq(alloc, value, last),
        Some(op) => {
            let update = Piece::Plain(update_instr(op, type_at(scene, path), width));
            let rest = make::seq(alloc, update, last)?;
            let rest = make::seq(alloc, value, rest)?;
            make::seq(alloc, load(scene, path), rest)
        }
    }
}

/// What is assigned to a path with an index, which runs once.
fn assign_at(
    alloc: Global,
    scene: &Scene,
    path: &Path,
    index: &Expr,
    op: Option<PairOp>,
    width: u8,
    value: Piece,
) -> Result<Piece, NoMemory>
    ensures { MakesWith result value (assign_piece (scene_of scene.now) (item_at scene.now path.now index.now) op width) }
{
    let at = expr(alloc, scene, index)?;
    let last = store_at(scene, path);
    match op {
        None => {
            let rest = make::seq(alloc, value, last)?;
            make::seq(alloc, at, rest)
        }
        Some(op) => {
            let update = Piece::Plain(update_instr(op, type_at(scene, path), width));
            let rest = make::seq(alloc, update, last)?;
            let rest = make::seq(alloc, value, rest)?;
            let rest = make::seq(alloc, load_at(scene, path), rest)?;
            let rest = make::seq(alloc, Piece::Plain(Instr::Dup), rest)?;
            make::seq(alloc, at, rest)
        }
    }
}

/// What is assigned to a left side, by the value's piece and its width.
fn assign(
    alloc: Global,
    scene: &Scene,
    left: &Left,
    op: Option<PairOp>,
    width: u8,
    value: Piece,
) -> Result<Piece, NoMemory>
    ensures { MakesWith result value (assign_piece (scene_of scene.now) (target_of scene.now left.now) op width) }
{
    match &left.index {
        None => assign_path(alloc, scene, &left.path, op, width, value),
        Some(index) => assign_at(alloc, scene, &left.path, index, op, width, value),
    }
}

/// An assignment of a value.
pub fn assign_value(
    alloc: Global,
    scene: &Scene,
    left: &Left,
    op: Option<PairOp>,
    value: &Expr,
) -> Result<Piece, NoMemory>
    ensures { Makes result (statement_piece (scene_of scene.now) (assignment left.now op value.now)) }
{
    let width = width_of(value.ty);
    let value = expr(alloc, scene, value)?;
    assign(alloc, scene, left, op, width, value)
}

/// A count by 1, up or down.
pub fn count(alloc: Global, scene: &Scene, left: &Left, up: bool) -> Result<Piece, NoMemory>
    ensures { Makes result (statement_piece (scene_of scene.now) (tree.counts (typed_left left.now) up)) }
{
    let one = Piece::Plain(Instr::PushNum(1));
    assign(alloc, scene, left, Some(count_op(up)), 32, one)
}

/// A loop, which may lack a condition.
pub fn around(
    alloc: Global,
    scene: &Scene,
    cond: &Option<Expr>,
    body: Piece,
    step: Piece,
) -> Result<Piece, NoMemory>
    ensures { MakesWithBoth result body step (loop_of scene.now cond.now) }
{
    match cond {
        None => make::ever(alloc, body, step),
        Some(cond) => {
            let cond = expr(alloc, scene, cond)?;
            make::test_loop(alloc, cond, body, step)
        }
    }
}

/// A call whose value is dropped.
pub fn does(alloc: Global, scene: &Scene, path: &Path, list: &[Expr]) -> Result<Piece, NoMemory>
    ensures { Makes result (bare_call scene.now path.now list.now) }
{
    let target = callee(scene, path);
    let made = call(alloc, scene, target, list)?;
    let end = if_nothing(
        scene.classes,
        target,
        Piece::Nothing,
        Piece::Plain(Instr::Pop),
    );
    make::seq(alloc, made, end)
}
