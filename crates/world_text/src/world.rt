//! A world.
ghost use Rattle.std.specs.Prelude.{◌≡◌};

use bit_field::Atom;
use draw_stream::AttemptPlan;
use tile_map::Map;

/// An atom and its site.
#[derive(Clone, Copy)]
pub struct Placed {
    /// The column.
    pub x: u32,
    /// The row.
    pub y: u32,
    /// The atom. Its type number is the place of its element's name among the names, from 1.
    pub atom: Atom,
}

/// The order of a stepped run.
#[derive(Drop)]
pub enum Order {
    /// The tiles, one for each step.
    List(Vec<u32>),
    /// The seed from which they are drawn.
    Seed(u64),
}

/// A world: its tiles, some of which may be off, their attempts, the atoms at the start, and the
/// order of a stepped run.
pub struct World {
    /// The tiles of the plane.
    pub map: Map,
    /// The attempts of each tile.
    pub plan: AttemptPlan,
    /// The atoms that are not empty, in the order in which they were placed.
    pub atoms: Vec<Placed>,
    /// The order of a stepped run.
    pub order: Order,
}

impl World {
    /// The map and the atoms alone.
    pub fn into_map_and_atoms(self) -> (Map, Vec<Placed>)
        ensures map { result.0 ≡ self.map }
        ensures atoms { result.1.items ≡ self.atoms.items }
    {
        let World {
            map,
            plan,
            atoms,
            order,
        } = self;
        (map, atoms)
    }
}

// Written by hand, not derived: so a caller drops it by one call.
impl Drop for World {
    fn drop(self) {
        let World {
            map,
            plan,
            atoms,
            order,
        } = self;
    }
}
