//! The world that a number gives.
ghost use Rattle.std.specs.Prelude.{◌≡◌, ◌+◌, ◌*◌, ◌<◌, ◌++◌, IfOk, OnOk};
ghost use Rattle.draw_stream.specs.Attempts.{stream_seed};
ghost use Rattle.draw_stream.specs.Words.{tile_state};
ghost use Rattle.generated_world.specs.Generated.{drawn_atoms, world_of_number, placed_at, put_by};
ghost use Rattle.world_runs.specs.Worlds.{IsWorld};
ghost use Rattle.world_text.specs.Values.{world_value};

use bit_field::Atom;
use draw_stream::{AttemptPlan, TileStream};
use feast_base::NoMemory;
use std::alloc::Global;
use tile_map::Map;
use world_text::{Order, Placed, World};

/// How many sites a row of the plane has.
const WIDTH: u32 = 64;

/// What a word is divided by to say what a site has.
const WAYS: u64 = 8;

/// The type number of `Wander`.
const WANDER: u16 = 1;

/// The type number of `Stone`.
const STONE: u16 = 2;

/// An atom of a type on the site of a place in row order.
fn placed_at(place: u32, kind: u16) -> Placed
    ensures { result ≡ placed_at place kind }
{
    Placed {
        x: place % WIDTH,
        y: place / WIDTH,
        atom: Atom::new(kind, 0),
    }
}

/// Puts on the site of a place what a number below 8 says.
fn put(atoms: &mut Vec<Placed>, place: u32, number: u32) -> Result<(), NoMemory>
    ensures { OnOk result (atoms.new.items ≡ atoms.old.items ++ put_by place number) }
{
    match number {
        0 => atoms.push(placed_at(place, WANDER))?,
        1 => atoms.push(placed_at(place, STONE))?,
        _ => {}
    }
    Ok(())
}

/// Puts atoms on the sites of two places, one after the other.
fn put_two(atoms: &mut Vec<Placed>, place: u32, one: u32, other: u32) -> Result<(), NoMemory>
    requires { place < 4096 }
    ensures { OnOk result (atoms.new.items ≡ atoms.old.items ++ (put_by place one ++ put_by (place + 1) other)) }
{
    put(atoms, place, one)?;
    put(atoms, place + 1, other)?;
    Ok(())
}

/// The atoms of all sites in row order, each of which takes the next word of the generator of a
/// seed. An attempt of a stream takes two words.
fn drawn_atoms(alloc: Global, seed: u64) -> Result<Vec<Placed>, NoMemory>
    ensures { IfOk result (λ v. v.items ≡ drawn_atoms seed 4096) }
{
    let mut stream = TileStream::new(seed, 0);
    let mut atoms = Vec::new(alloc);
    for pair in 0..2048u32 {
        let words = stream.attempt(WAYS);
        put_two(
            &mut atoms,
            2 * pair,
            words.centre,
            (words.seed % WAYS) as u32,
        )?;
    }
    Ok(atoms)
}

/// The world of a number.
fn drawn_world(alloc: Global, number: u64) -> Result<World, NoMemory>
    ensures { IfOk result (λ w. world_value w ≡ world_of_number number) }
{
    let off = vec![in alloc; false; 16]?;
    let plan = AttemptPlan::seeded(alloc, number, 500, off.as_slice(), 256)?;
    let map = Map::with_off(alloc, 4, 4, 16, 16, off.as_slice())?;
    let atoms = drawn_atoms(alloc, number.wrapping_add(2))?;
    Ok(World {
        map,
        plan,
        atoms,
        order: Order::Seed(number.wrapping_add(1)),
    })
}

/// The world of a number: 4 by 4 tiles of 16 by 16 sites, whose plan, order and atoms are drawn.
/// About one of eight sites has a `Wander` (type 1), one a `Stone` (type 2), and the others
/// nothing. `NoMemory` if there is none for its tiles or for its atoms.
pub fn world_of_number(alloc: Global, number: u64) -> Result<World, NoMemory>
    ensures value { IfOk result (λ w. world_value w ≡ world_of_number number) }
    ensures world { IfOk result (λ w. IsWorld (world_value w)) }
{
    let world = drawn_world(alloc, number)?;
    Ok(world)
}
