//! What acts on the windows of a world, tile by tile.
ghost use Rattle.std.specs.Prelude.{◌≡◌, ◌≤◌, All, IfOk, length};
ghost use Rattle.feast_run.specs.Acting.{acts};
ghost use Rattle.feast_run.specs.Values.{elements_value};
ghost use Rattle.tile_map.specs.Plane.{tiles_of};
ghost use Rattle.world_text.specs.Values.{world_value};

use crate::elements::{ElementActor, Elements};
use feast_base::NoMemory;
use std::alloc::Global;
use world_text::World;

/// How many tiles a world has.
pub fn tiles_in(world: &World) -> u32
    ensures { result ≡ tiles_of (world_value world.now).plane }
{
    world.map.tiles()
}

/// For each tile, something that acts on windows as the elements of a world do.
pub fn actors(
    alloc: Global,
    elements: &Elements,
    tiles: u32,
) -> Result<Vec<ElementActor<'_>>, NoMemory>
    ensures many { IfOk result (λ v. length v.items ≡ tiles) }
    ensures acts { IfOk result (λ v. All (λ a. acts a ≡ (elements_value elements.now).meaning) v.items) }
{
    let mut actors = Vec::new(alloc);
    for _tile in 0..tiles {
        let actor = elements.actor(alloc)?;
        actors.push(actor)?;
    }
    Ok(actors)
}
