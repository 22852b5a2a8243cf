//! Giving the atoms of a world the types of their names.
ghost use Rattle.std.specs.Prelude.{ℕ, ◌≡◌, ◌+◌, ◌*◌, ◌≤◌, ◌<◌, ◌^◌, All, IfOk, IfSome, List, false, length, map, not, slice_index_or, slice_set, true};
ghost use Rattle.draw_stream.specs.Plans.{IsPlan, scripted, tiles_on};
ghost use Rattle.world_text.specs.Atoms.{RawAtom, raw_atoms};
ghost use Rattle.world_text.specs.Named.{AreKinds, NamesAtoms, order_by, plan_by, type_of};
ghost use Rattle.world_text.specs.Printed.{IsNamed, IsPrintable};
ghost use Rattle.world_text.specs.Values.{Names, order_value, world_value};
ghost use Rattle.bit_field.specs.declared.TheConstants.{STATE_BITS};
ghost use Rattle.feast_base.specs.declared.limits.TheConstants.{MOST_ATTEMPTS, MOST_SITES, MOST_TILES};
ghost use Rattle.window_sites.specs.declared.window.TheConstants.{MOST_COLUMNS};

use crate::atoms::RawAtoms;
use crate::draft::Tries;
use crate::fault::WorldFault;
use crate::raw_world::RawWorld;
use crate::world::{Order, Placed, World};
use bit_field::Atom;
use draw_stream::{AttemptPlan, Script};
use feast_base::{Name, NoMemory};
use std::alloc::Global;
use std::collections::HashMap;
use tile_map::Map;

/// The type number of each name: its place among the names, from 1, the first one if it has
/// several. `NoMemory` if there is none for the map.
pub fn kinds_of(alloc: Global, names: &[Name]) -> Result<HashMap<&[u8], u16>, NoMemory>
    requires { length names.now ≤ 65535 }
    ensures { IfOk result (λ m. AreKinds names.now m) }
{
    let mut kinds = HashMap::new(alloc);
    for place in (0..names.len()).rev() {
        kinds.insert(names[place].bytes(), (place + 1) as u16)?;
    }
    Ok(kinds)
}

/// The type number of a name, from what `kinds_of` gave. None if no element has the name.
pub fn type_of(kinds: &HashMap<&[u8], u16>, name: &[u8]) -> Option<u16>
    ensures { (names : List (List ℕ)) → AreKinds names kinds.now → result ≡ type_of names name.now }
{
    kinds.get(name).copied()
}

/// The type numbers of kept names.
fn types_of(
    alloc: Global,
    kinds: &HashMap<&[u8], u16>,
    kept: &[Name],
) -> Result<Vec<Option<u16>>, NoMemory>
    ensures { (names : List (List ℕ)) → AreKinds names kinds.now → IfOk result (λ v. v.items ≡ map (type_of names) kept.now) }
{
    let mut types = Vec::new(alloc);
    for name in kept {
        types.push(type_of(kinds, name.bytes()))?;
    }
    Ok(types)
}

/// The place of a site in row order.
fn place_of(width: u32, height: u32, x: u32, y: u32) -> usize
    requires small { (width ≤ MOST_COLUMNS) × (height ≤ MOST_COLUMNS) }
    requires inside { (x < width) × (y < height) }
    ensures value { result ≡ y * width + x }
    ensures below { result < width * height }
{
    (y * width + x) as usize
}

/// Marks a place as taken, and answers whether it was free.
fn take_site(marks: &mut Vec<bool>, place: usize) -> bool
    requires { place < length marks.old.items }
    ensures free { result ≡ not (slice_index_or marks.old.items place false) }
    ensures taken { marks.new.items ≡ slice_set marks.old.items place true }
{
    let free = !marks[place];
    marks[place] = true;
    free
}

/// The atoms with the types of their names, or the first fault.
fn name_atoms(
    alloc: Global,
    names: &[Name],
    width: u32,
    height: u32,
    atoms: &RawAtoms,
) -> Result<Vec<Placed>, WorldFault>
    requires names { length names.now ≤ 65535 }
    requires small { (width ≤ MOST_COLUMNS) × (height ≤ MOST_COLUMNS) }
    requires inside { All (λ (a : RawAtom). (a.x < width) × (a.y < height) × (a.state < 2 ^ STATE_BITS)) (raw_atoms atoms.now) }
    ensures { NamesAtoms names.now width (raw_atoms atoms.now) result }
{
    let kinds = kinds_of(alloc, names)?;
    let types = types_of(alloc, &kinds, atoms.names())?;
    let mut marks = Vec::from_elem(alloc, false, (width * height) as usize)?;
    let mut found = Vec::new(alloc);
    for raw in atoms.atoms() {
        let Some(kind) = types[raw.name] else {
            return Err(WorldFault::UnknownElement(raw.line));
        };
        let place = place_of(width, height, raw.x, raw.y);
        if !take_site(&mut marks, place) {
            return Err(WorldFault::SiteTaken(raw.line));
        }
        found.push(Placed {
            x: raw.x,
            y: raw.y,
            atom: Atom::new(kind, raw.state),
        })?;
    }
    Ok(found)
}

/// The scripts of lists of attempts.
fn scripts(alloc: Global, tries: Vec<Tries>) -> Result<Vec<Script>, NoMemory>
    ensures { IfOk result (λ v. v.items ≡ tries.items) }
{
    let mut scripts = Vec::new(alloc);
    for of_tile in tries {
        scripts.push(of_tile.into_script())?;
    }
    Ok(scripts)
}

/// The plan of a draft.
fn plan(
    alloc: Global,
    origin: Option<(u64, u64)>,
    tries: Vec<Tries>,
    off: &[bool],
    sites: u64,
) -> Result<AttemptPlan, NoMemory>
    requires some { 1 ≤ length off.now }
    requires most { length off.now ≤ MOST_TILES }
    requires sites { (1 ≤ sites) × (sites ≤ MOST_SITES) }
    requires drawn { IfSome origin (λ o. o.1 * tiles_on off.now ≤ MOST_ATTEMPTS) }
    requires written { IsPlan (scripted tries.items) }
    ensures { IfOk result (λ p. p ≡ plan_by off.now sites tries.items origin) }
{
    match origin {
        Some((seed, count)) => AttemptPlan::seeded(alloc, seed, count, off, sites),
        None => Ok(AttemptPlan::scripted(scripts(alloc, tries)?)),
    }
}

/// The order of a draft.
fn order(tiles: Vec<u32>, seed: Option<u64>) -> Order
    ensures { order_value result ≡ order_by tiles.items seed }
{
    match seed {
        Some(seed) => Order::Seed(seed),
        None => Order::List(tiles),
    }
}

/// The world that a text says.
fn world(alloc: Global, raw: RawWorld, names: &[Name]) -> Result<World, WorldFault>
    requires { length names.now ≤ 65535 }
    ensures { Names names.now raw result }
{
    let draft = raw.into_draft();
    let (width, height) = (draft.tx * draft.w, draft.ty * draft.h);
    let atoms = name_atoms(alloc, names, width, height, &draft.atoms)?;
    let sites = (draft.w * draft.h) as u64;
    let plan = plan(
        alloc,
        draft.origin,
        draft.tries,
        draft.off.as_slice(),
        sites,
    )?;
    let off = draft.off.as_slice();
    let map = Map::with_off(alloc, draft.tx, draft.ty, draft.w, draft.h, off)?;
    Ok(World {
        map,
        plan,
        atoms,
        order: order(draft.order, draft.order_seed),
    })
}

/// The world that a text says, from what `read` gave and the names of the elements, in the order of
/// their type numbers. `UnknownElement` at the first `atom` line whose name no element has, and
/// `SiteTaken` at the first whose site an earlier one has, whichever comes first. `NoMemory` if
/// there is none for the world.
pub fn name(alloc: Global, raw: RawWorld, names: &[Name]) -> Result<World, WorldFault>
    requires { length names.now ≤ 65535 }
    ensures world { Names names.now raw result }
    ensures named { IfOk result (λ w. IsNamed names.now (world_value w)) }
    ensures valid { IfOk result (λ w. IsPrintable names.now (world_value w)) }
{
    raw.laws();
    world(alloc, raw, names)
}
