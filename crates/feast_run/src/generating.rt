//! The stages of the run of a generated world.
ghost use Rattle.std.specs.Prelude.{◌≡◌, IfOk, Ok, OnOk};
ghost use Rattle.feast_run.specs.Generating.{generated_with, generates, summary_with};
ghost use Rattle.feast_run.specs.Outputs.{IsWritable, output_text};
ghost use Rattle.feast_run.specs.Stages.{ready_with};
ghost use Rattle.feast_run.specs.Stepped.{IsOutcomeOf, IsSteppedRun};
ghost use Rattle.feast_run.specs.Tellings.{MissesNone, Tells};
ghost use Rattle.feast_run.specs.Values.{elements_value};
ghost use Rattle.world_runs.specs.Worlds.{IsWorld};
ghost use Rattle.world_runs.specs.Orders.{IsOrder};
ghost use Rattle.world_text.specs.Values.{order_value, world_value};

use crate::acting::{actors, tiles_in};
use crate::elements::Elements;
use crate::generated_elements::elements;
use crate::halt::Halt;
use crate::output::Output;
use feast_base::NoMemory;
use generated_world::{summary, world_of_number};
use serial_order::Outcome;
use std::alloc::Global;
use world_runs::stepped;
use world_text::World;

/// The result of the stepped run of a world, with these elements.
fn outcome(alloc: Global, world: &World, elements: &Elements) -> Result<Outcome, NoMemory>
    requires world { IsWorld (world_value world.now) }
    requires order { IsOrder (world_value world.now).plane (order_value world.now.order) }
    ensures { IfOk result (IsOutcomeOf (ready_with (world_value world.now) (elements_value elements.now))) }
{
    let actors = actors(alloc, elements, tiles_in(world))?;
    stepped(alloc, world, actors)
}

/// The summary of the stepped run of the world of a number, with these elements.
fn summary_of(alloc: Global, number: u64, elements: &Elements) -> Result<Vec<u8>, NoMemory>
    ensures run { OnOk result (IsSteppedRun (generated_with number (elements_value elements.now))) }
    ensures text { IfOk result (λ v. v.items ≡ summary_with number (elements_value elements.now)) }
{
    let world = world_of_number(alloc, number)?;
    let outcome = outcome(alloc, &world, elements)?;
    summary(alloc, number, &outcome.grid, &outcome.journal)
}

/// The summary of the stepped run of the world of a number, with its elements.
fn own_summary(alloc: Global, number: u64) -> Result<Vec<u8>, NoMemory>
    ensures { IfOk result (λ v. generates number (Ok v.items)) }
{
    let own = Elements::Sources(elements(alloc)?);
    summary_of(alloc, number, &own)
}

/// The stages of the run of a generated world, up to its summary. No file is loaded.
pub fn gen_stages<'a>(alloc: Global, number: u64) -> Result<Output, Halt<'a>>
    ensures none { MissesNone result }
    ensures tells { Tells output_text (generates number) result }
    ensures writable { IfOk result IsWritable }
{
    let text = own_summary(alloc, number)?;
    Ok(Output::Text(text))
}
