//! Reading and writing what paths name.
ghost use Rattle.std.specs.Prelude.{◌≡◌, Option};
ghost use Rattle.ulam_meaning.specs.Paths.{spot_type};
ghost use Rattle.code_gen.specs.Clipped.{byte};
ghost use Rattle.code_gen.specs.Made.{IsPiece, Makes};
ghost use Rattle.code_gen.specs.Scheme.{nowhere, fit, load, load_at, store, store_at};
ghost use Rattle.code_gen.specs.Seen.{scene_of, spot_of, path_spot};

use crate::classes::{Scene, Spot};
use crate::kinds::number_type;
use crate::make;
use crate::path::spot;
use crate::piece::Piece;
use feast_base::NoMemory;
use sat_math::NumType;
use stack_code::Instr;
use std::alloc::Global;
use ulam_tree::resolved::{Path, Ty};

/// A number of an instruction, which has room for those below 256.
pub fn byte(n: u32) -> u8
    ensures { result ≡ byte n }
{
    n.min(255) as u8
}

/// A stand-in for what no typed tree has.
pub fn nowhere() -> Piece
    ensures { IsPiece result nowhere }
{
    Piece::Plain(Instr::Jump(0))
}

/// A cast to a type of numbers, if there is one.
pub fn fit(num: Option<NumType>) -> Piece
    ensures { IsPiece result (fit num) }
{
    match num {
        None => Piece::Nothing,
        Some(num) => Piece::Plain(Instr::Fit(num.kind, num.width)),
    }
}

/// The piece that pushes the value of a place that has no index.
fn load_spot(spot: Spot) -> Piece
    ensures { IsPiece result (load (spot_of spot)) }
{
    match spot {
        Spot::Own => Piece::Plain(Instr::LoadSelf),
        Spot::Local { slot } => Piece::Plain(Instr::LoadLocal(byte(slot))),
        Spot::Member { span: p } => {
            let first = byte(p.first);
            Piece::Plain(Instr::LoadField(first, p.num.width, p.num.kind))
        }
        Spot::Part { slot, span: p } => {
            let (slot, first) = (byte(slot), byte(p.first));
            Piece::Plain(Instr::LoadPart(slot, first, p.num.width, p.num.kind))
        }
        Spot::Constant { value } => Piece::Plain(Instr::PushNum(value)),
        Spot::Window | Spot::Nothing => nowhere(),
    }
}

/// The piece that pushes the value at an index, which it takes off the stack.
fn load_at_spot(spot: Spot) -> Piece
    ensures { IsPiece result (load_at (spot_of spot)) }
{
    match spot {
        Spot::Window => Piece::Plain(Instr::LoadSite),
        Spot::Member { span: p } => {
            let (first, length) = (byte(p.first), byte(p.length));
            Piece::Plain(Instr::LoadFieldAt(first, p.num.width, p.num.kind, length))
        }
        Spot::Part { slot, span: p } => {
            let (slot, first, length) = (byte(slot), byte(p.first), byte(p.length));
            Piece::Plain(Instr::LoadPartAt(slot, first, p.num.width, p.num.kind, length))
        }
        _ => nowhere(),
    }
}

/// The type of what a place holds.
fn spot_type(scene: &Scene, spot: Spot) -> Ty
    ensures { result ≡ spot_type (scene_of scene.now) (spot_of spot) }
{
    match spot {
        Spot::Local { slot } => match scene.slots.get(slot as usize) {
            None => Ty::Nothing,
            Some(ty) => *ty,
        },
        Spot::Member { span } | Spot::Part { span, .. } => Ty::Num { num: span.num },
        _ => Ty::Nothing,
    }
}

/// The piece that stores the top of the stack at a place that has no index.
fn store_spot(alloc: Global, scene: &Scene, spot: Spot) -> Result<Piece, NoMemory>
    ensures { Makes result (store (scene_of scene.now) (spot_of spot)) }
{
    match spot {
        Spot::Local { slot } => {
            let cast = fit(number_type(spot_type(scene, spot)));
            make::then_instr(alloc, cast, Instr::StoreLocal(byte(slot)))
        }
        Spot::Member { span: p } => {
            let first = byte(p.first);
            Ok(Piece::Plain(Instr::StoreField(first, p.num.width, p.num.kind)))
        }
        Spot::Part { slot, span: p } => {
            let (slot, first) = (byte(slot), byte(p.first));
            Ok(Piece::Plain(Instr::StorePart(slot, first, p.num.width, p.num.kind)))
        }
        _ => Ok(nowhere()),
    }
}

/// The piece that stores the top of the stack at an index, which lies below it.
fn store_at_spot(spot: Spot) -> Piece
    ensures { IsPiece result (store_at (spot_of spot)) }
{
    match spot {
        Spot::Window => Piece::Plain(Instr::StoreSite),
        Spot::Member { span: p } => {
            let (first, length) = (byte(p.first), byte(p.length));
            Piece::Plain(Instr::StoreFieldAt(first, p.num.width, p.num.kind, length))
        }
        Spot::Part { slot, span: p } => {
            let (slot, first, length) = (byte(slot), byte(p.first), byte(p.length));
            Piece::Plain(Instr::StorePartAt(slot, first, p.num.width, p.num.kind, length))
        }
        _ => nowhere(),
    }
}

/// Gives what a path names.
pub fn load(scene: &Scene, path: &Path) -> Piece
    ensures { IsPiece result (load (path_spot scene.now path.now)) }
{
    load_spot(spot(scene, path))
}

/// Gives the item at the index on top of what a path names.
pub fn load_at(scene: &Scene, path: &Path) -> Piece
    ensures { IsPiece result (load_at (path_spot scene.now path.now)) }
{
    load_at_spot(spot(scene, path))
}

/// The type of what a path names, if something can be stored there.
pub fn type_at(scene: &Scene, path: &Path) -> Ty
    ensures { result ≡ spot_type (scene_of scene.now) (path_spot scene.now path.now) }
{
    spot_type(scene, spot(scene, path))
}

/// Stores the value on top at a path.
pub fn store(alloc: Global, scene: &Scene, path: &Path) -> Result<Piece, NoMemory>
    ensures { Makes result (store (scene_of scene.now) (path_spot scene.now path.now)) }
{
    store_spot(alloc, scene, spot(scene, path))
}

/// Stores the value on top at a path, with the index below it.
pub fn store_at(scene: &Scene, path: &Path) -> Piece
    ensures { IsPiece result (store_at (path_spot scene.now path.now)) }
{
    store_at_spot(spot(scene, path))
}
