//! What holds of the texts of worlds.
ghost use Rattle.world_text.specs.Named.{ReadsWorld};
ghost use Rattle.world_text.specs.Printed.{IsNamed, world_text};
ghost use Rattle.world_text.specs.Saying.{AreCut, AreWorldCuts, SaysItsLines};
ghost use Rattle.world_text.specs.Values.{world_value};

use crate::world::World;
use feast_base::Name;

/// What holds of every text that is made of lines as `print` makes them: it says what its lines
/// say, one after another; and if it is a world, its first lines are one too, with the same names,
/// unless a line is missing after them. The call does nothing: its contract is the laws.
#[tactic(auto, using(crate::proofs::Again::text_again, crate::proofs::Cut::are_cut))]
pub fn laws(world: &World)
    ensures says { SaysItsLines }
    ensures cut { AreCut }
{
    // Only the contract speaks of the arguments; they are read so that none is unused.
    let _tiles = world.map.tiles();
}

/// What holds of the text that `print` writes of a world that `name` gave with these names: read
/// and named with them it says this world; and its first lines say a world that they name, unless a
/// line is missing after them. The call does nothing: its contract is the laws.
#[tactic(auto, using(crate::proofs::Round::reads_again))]
pub fn reads_again(world: &World, names: &[Name])
    requires { IsNamed names.now (world_value world.now) }
    ensures again { ReadsWorld (world_text names.now (world_value world.now)) names.now (world_value world.now) }
    ensures cut { AreWorldCuts names.now (world_value world.now) }
{
    // Only the contract speaks of the arguments; they are read so that none is unused.
    let _tiles = world.map.tiles();
    let _names = names.len();
}
