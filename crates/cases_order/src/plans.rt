//! Plans of few attempts.
ghost use Rattle.std.specs.Prelude.{◌≤◌, ◌*◌, IfOk, length};
ghost use Rattle.tile_map.specs.Plane.{AreSizes};
ghost use Rattle.cases_order.specs.Plans.{IsPlanFor, IsScript};

use draw_stream::{Attempt, AttemptPlan, Script};
use feast_base::NoMemory;
use std::alloc::Global;

/// How many tiles a plane has in a row and in a column, and how many sites a tile has in each.
#[derive(Clone, Copy, Debug)]
pub struct Shape {
    /// Tiles in a row.
    pub tx: u32,
    /// Tiles in a column.
    pub ty: u32,
    /// Columns of a tile.
    pub w: u32,
    /// Rows of a tile.
    pub h: u32,
}

/// An attempt of a tile at a site of its rectangle.
#[derive(Clone, Copy, Debug)]
pub struct Try {
    /// The tile.
    pub tile: u32,
    /// The site's column.
    pub x: u32,
    /// The site's row.
    pub y: u32,
}

/// The attempts of one tile in their order, all with seed 0.
fn script(alloc: Global, shape: Shape, tries: &[Try], tile: u32) -> Result<Script, NoMemory>
    requires sizes { AreSizes shape.tx shape.ty shape.w shape.h }
    requires few { length tries.now ≤ 100 }
    ensures { IfOk result (λ s. IsScript (shape.w * shape.h) s) }
{
    let mut list = Vec::new(alloc);
    for t in tries {
        if t.tile == tile {
            list.push(Attempt {
                centre: t.y % shape.h * shape.w + t.x % shape.w,
                seed: 0,
            })?;
        }
    }
    Ok(Script::new(list))
}

/// The plan by which each tile makes its attempts of a list.
pub fn plan(alloc: Global, shape: Shape, tries: &[Try]) -> Result<AttemptPlan, NoMemory>
    requires sizes { AreSizes shape.tx shape.ty shape.w shape.h }
    requires few { length tries.now ≤ 100 }
    ensures { IfOk result (λ p. IsPlanFor (shape.tx * shape.ty) (shape.w * shape.h) p) }
{
    let mut scripts = Vec::new(alloc);
    for tile in 0..shape.tx * shape.ty {
        scripts.push(script(alloc, shape, tries, tile)?)?;
    }
    Ok(AttemptPlan::scripted(scripts))
}
