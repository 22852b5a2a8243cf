//! Giving the atoms of a chain the types of their names.
ghost use Rattle.std.specs.Prelude.{ℕ, ◌≡◌, ◌≤◌, ◌<◌, ◌^◌, All, IfOk, List, length};
ghost use Rattle.bit_field.specs.declared.TheConstants.{STATE_BITS};
ghost use Rattle.chain_text.specs.Chain.{IsChain};
ghost use Rattle.chain_text.specs.Named.{FitsAtom, IfNamed, NamesEvery, NamesOnce, named_act, origin_of};
ghost use Rattle.chain_text.specs.Printed.{IsNamed};
ghost use Rattle.world_text.specs.Named.{AreKinds};
ghost use Rattle.chain_text.specs.Values.{Names, chain_value};

use crate::chain::Chain;
use crate::raw_act::{NumberedAct, RawAct};
use crate::raw_chain::RawChain;
use bit_field::Atom;
use draw_stream::AttemptPlan;
use feast_base::Name;
use plane_acts::{Act, Every, Once, Schedule};
use std::alloc::Global;
use std::collections::HashMap;
use world_text::{WorldFault, kinds_of, type_of};

/// An act with the type of its atom's name. None if no element has the name.
fn name_act(kinds: &HashMap<&[u8], u16>, act: &RawAct) -> Option<Act>
    requires { IfNamed act.now (λ s. s < 2 ^ STATE_BITS) }
    ensures { (names : List (List ℕ)) → AreKinds names kinds.now → result ≡ named_act names act.now }
{
    match act {
        RawAct::Known(act) => Some(*act),
        RawAct::Named(area, name, state) => {
            let kind = type_of(kinds, name.bytes())?;
            Some(Act::Put(*area, Atom::new(kind, *state)))
        }
    }
}

/// The acts of many legs with the types of their atoms' names, or the first fault.
fn name_every(
    alloc: Global,
    kinds: &HashMap<&[u8], u16>,
    acts: &[NumberedAct],
) -> Result<Vec<Every>, WorldFault>
    requires { All FitsAtom acts.now }
    ensures { (names : List (List ℕ)) → AreKinds names kinds.now → NamesEvery names acts.now result }
{
    let mut named = Vec::new(alloc);
    for raw in acts {
        let Some(act) = name_act(kinds, &raw.act) else {
            return Err(WorldFault::UnknownElement(raw.line));
        };
        named.push(Every {
            period: raw.number,
            act,
        })?;
    }
    Ok(named)
}

/// The acts of one leg each with the types of their atoms' names, or the first fault.
fn name_once(
    alloc: Global,
    kinds: &HashMap<&[u8], u16>,
    acts: &[NumberedAct],
) -> Result<Vec<Once>, WorldFault>
    requires { All FitsAtom acts.now }
    ensures { (names : List (List ℕ)) → AreKinds names kinds.now → NamesOnce names acts.now result }
{
    let mut named = Vec::new(alloc);
    for raw in acts {
        let Some(act) = name_act(kinds, &raw.act) else {
            return Err(WorldFault::UnknownElement(raw.line));
        };
        named.push(Once {
            leg: raw.number,
            act,
        })?;
    }
    Ok(named)
}

/// The seed of a plan, and how many attempts each tile draws.
fn origin(plan: &AttemptPlan) -> (u64, u64)
    ensures { result ≡ origin_of plan.now.origin }
{
    match plan.origin() {
        Some(origin) => origin,
        None => (0, 0),
    }
}

/// The chain that a text says, from what `read` gave and the names of the elements, in the order of
/// their type numbers. `UnknownElement` at the first `every` line whose name no element has, or if
/// there is none at the first such `act` line. After them the `atom` lines: `UnknownElement` at the
/// first whose name no element has, and `SiteTaken` at the first whose site an earlier one has,
/// whichever comes first. `NoMemory` if there is none for the chain.
pub fn name(alloc: Global, raw: RawChain, names: &[Name]) -> Result<Chain, WorldFault>
    requires { length names.now ≤ 65535 }
    ensures chain { Names names.now raw result }
    ensures named { IfOk result (λ c. IsNamed names.now (chain_value c)) }
    ensures valid { IfOk result (λ c. IsChain names.now (chain_value c)) }
{
    let draft = raw.into_draft();
    let kinds = kinds_of(alloc, names)?;
    let every = name_every(alloc, &kinds, draft.every.as_slice())?;
    let once = name_once(alloc, &kinds, draft.once.as_slice())?;
    let world = world_text::name(alloc, draft.world.into_raw(), names)?;
    let (seed, attempts) = origin(&world.plan);
    let (map, atoms) = world.into_map_and_atoms();
    Ok(Chain {
        map,
        seed,
        attempts,
        legs: draft.legs,
        first: draft.first,
        journal: draft.journal,
        schedule: Schedule::new(every, once),
        atoms,
    })
}
