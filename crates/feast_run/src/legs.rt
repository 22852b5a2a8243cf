//! The legs of a chain, each run and put before the next one begins.
ghost use Rattle.std.specs.Prelude.{◌<◌, ◌^◌, ◌-◌, IfOk, false, true};
ghost use Rattle.chain_run.specs.Between.{IsBetween, IsLegLeft};
ghost use Rattle.chain_text.specs.Values.{chain_value};
ghost use Rattle.feast_run.specs.Changes.{change};
ghost use Rattle.feast_run.specs.Legs.{IsLegMade, PutsLegs};
ghost use Rattle.feast_run.specs.Values.{IsReadyChain, elements_value, ready_chain_value};

use crate::acting::actors;
use crate::output::LegsToRun;
use crate::worlds::ReadyChain;
use cell_grid::Grid;
use chain_run::{LegOf, LegWriter, first_grid, run_leg, step_leg};
use feast_base::{Gate, NoMemory, Sink};
use report_text::WriteFault;
use serial_order::Outcome;
use std::alloc::Global;
use std::thread::Threads;

/// Runs the leg of this number from the grid that the one before it left.
fn ran_leg<R: Threads + Sync, G: Gate>(
    rt: &R,
    alloc: Global,
    ready: &ReadyChain,
    number: u32,
    grid: Grid,
    gate: &G,
) -> Result<Outcome, NoMemory>
    requires ready { IsReadyChain ready.now }
    requires between { IsBetween (elements_value ready.now.elements).names (chain_value ready.now.chain) grid }
    ensures made { IfOk result (IsLegMade false (ready_chain_value ready.now) number grid) }
    ensures left { IfOk result (IsLegLeft (elements_value ready.now.elements).names (chain_value ready.now.chain)) }
{
    let chain = &ready.chain;
    let actors = actors(alloc, &ready.elements, chain.map.tiles())?;
    run_leg(rt, alloc, LegOf { chain, number }, grid, actors, gate)
}

/// Steps the leg of this number from the grid that the one before it left.
fn stepped_leg(
    alloc: Global,
    ready: &ReadyChain,
    number: u32,
    grid: Grid,
) -> Result<Outcome, NoMemory>
    requires ready { IsReadyChain ready.now }
    requires between { IsBetween (elements_value ready.now.elements).names (chain_value ready.now.chain) grid }
    ensures made { IfOk result (IsLegMade true (ready_chain_value ready.now) number grid) }
    ensures left { IfOk result (IsLegLeft (elements_value ready.now.elements).names (chain_value ready.now.chain)) }
{
    let chain = &ready.chain;
    let actors = actors(alloc, &ready.elements, chain.map.tiles())?;
    step_leg(alloc, LegOf { chain, number }, grid, actors)
}

/// Runs or steps the leg of this number from the grid that the one before it left.
fn make_leg<R: Threads + Sync, G: Gate>(
    rt: &R,
    alloc: Global,
    legs: &LegsToRun,
    number: u32,
    grid: Grid,
    gate: &G,
) -> Result<Outcome, NoMemory>
    requires ready { IsReadyChain legs.now.ready }
    requires between { IsBetween (elements_value legs.now.ready.elements).names (chain_value legs.now.ready.chain) grid }
    ensures made { IfOk result (IsLegMade legs.now.stepped (ready_chain_value legs.now.ready) number grid) }
    ensures left { IfOk result (IsLegLeft (elements_value legs.now.ready.elements).names (chain_value legs.now.ready.chain)) }
{
    if legs.stepped {
        stepped_leg(alloc, &legs.ready, number, grid)
    } else {
        ran_leg(rt, alloc, &legs.ready, number, grid, gate)
    }
}

/// Runs or steps the legs of a chain, one after another, and puts the report of each before the next one
/// begins. `Sink` only if the sink failed; it then has the reports of some legs whole, and a first part of
/// that of the next one. `NoMemory` if there was none for a leg or its report; then the reports of the
/// legs before it were put whole.
pub fn put_legs<R: Threads + Sync, K: Sink, G: Gate>(
    rt: &R,
    alloc: Global,
    sink: &mut K,
    legs: &LegsToRun,
    gate: &G,
) -> Result<(), WriteFault>
    requires room { (K.state sink.old).faults < 2 ^ 64 - 1 }
    requires ready { IsReadyChain legs.now.ready }
    ensures { PutsLegs legs.now.stepped (ready_chain_value legs.now.ready) (change K.state sink.old sink.new) result }
{
    let chain = &legs.ready.chain;
    let names = legs.ready.elements.names();
    let mut grid = first_grid(alloc, chain, names)?;
    let mut writer = LegWriter::new(names);
    for made in 0..chain.legs {
        let number = chain.first + made;
        let outcome = make_leg(rt, alloc, legs, number, grid, gate)?;
        writer.put(rt, alloc, LegOf { chain, number }, &outcome, sink)?;
        let Outcome {
            grid: left,
            journal: _,
        } = outcome;
        grid = left;
    }
    Ok(())
}
