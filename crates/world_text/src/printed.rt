//! Printing a world.
ghost use Rattle.std.specs.Prelude.{◌≡◌, ◌≤◌, ◌<◌, ◌*◌, ◌+◌, ◌∷◌, ◌++◌, [], All, IfOk, length, map, decimal, codes};
ghost use Rattle.std.specs.List.{list_any};
ghost use Rattle.draw_stream.specs.declared.attempt.Attempt.{Attempt};
ghost use Rattle.feast_base.specs.Appending.{Appends};
ghost use Rattle.text_lines.specs.Lines.{ended_line};
ghost use Rattle.text_lines.specs.Values.{field_text};
ghost use Rattle.tile_map.specs.Plane.{IsMap, tiles_of};
ghost use Rattle.world_text.specs.Line.{header, order};
ghost use Rattle.world_text.specs.Printed.{IsNamed, IsPrintable, atom_line, line_fields, lines_text, off_lines, off_one, order_lines, plan_lines, plane_lines, text_of_line, try_line, try_lines, world_text};
ghost use Rattle.world_text.specs.Values.{order_value, world_plane, world_value};
ghost use Rattle.world_text.specs.Named.{listed};
ghost use Rattle.world_text.specs.declared.world.Placed.{Placed};

use crate::world::{Order, Placed, World};
use draw_stream::{Attempt, Attempts};
use feast_base::{Name, NoMemory};
use std::alloc::Global;
use text_lines::{Field, push_line};
use tile_map::Map;

/// Appends a header.
fn push_header(out: &mut Vec<u8>, second: bool) -> Result<(), NoMemory>
    ensures { Appends out.old.items out.new.items result (text_of_line (header second)) }
{
    if second {
        push_line(out, &[Field::Word(b"feast"), Field::Word(b"2")])
    } else {
        push_line(out, &[Field::Word(b"feast"), Field::Word(b"1")])
    }
}

/// Appends a line of a word and two numbers.
fn push_two(out: &mut Vec<u8>, word: &[u8], a: u32, b: u32) -> Result<(), NoMemory>
    ensures { Appends out.old.items out.new.items result (ended_line (word.now ∷ decimal a ∷ decimal b ∷ [])) }
{
    push_line(
        out,
        &[
            Field::Word(word),
            Field::Number(a as u64),
            Field::Number(b as u64),
        ],
    )
}

/// Whether a tile of a map is off.
fn is_one_off(map: &Map) -> bool
    ensures { result ≡ list_any (λ o. o) map.now.off }
{
    for tile in 0..map.tiles() {
        if !map.is_on(tile) {
            return true;
        }
    }
    false
}

/// How many tiles a row of a map's tiles has.
fn tiles_across(map: &Map) -> u32
    ensures value { result ≡ map.now.tx }
    ensures valid { IsMap map.now }
{
    map.width() / map.tile_width()
}

/// How many tiles a column of a map's tiles has.
fn tiles_down(map: &Map) -> u32
    ensures value { result ≡ map.now.ty }
{
    map.height() / map.tile_height()
}

/// Appends the lines of a plane: the header, how many tiles there are, and their size.
fn push_plane(out: &mut Vec<u8>, map: &Map) -> Result<(), NoMemory>
    ensures { Appends out.old.items out.new.items result (lines_text (plane_lines map.now)) }
{
    push_header(out, is_one_off(map))?;
    push_two(out, b"tiles", tiles_across(map), tiles_down(map))?;
    push_two(out, b"size", map.tile_width(), map.tile_height())
}

/// Appends the `off` line of a tile, if it is off.
fn push_mark(out: &mut Vec<u8>, tile: u32, is_off: bool) -> Result<(), NoMemory>
    ensures { Appends out.old.items out.new.items result (lines_text (off_one tile is_off)) }
{
    if is_off {
        push_line(out, &[Field::Word(b"off"), Field::Number(tile as u64)])
    } else {
        Ok(())
    }
}

/// Appends an `off` line for each tile that is off. `NoMemory` if `out` can't grow.
#[tactic(auto, unfolding(crate::specs::Printed::off_lines))]
pub fn push_off(out: &mut Vec<u8>, map: &Map) -> Result<(), NoMemory>
    ensures { Appends out.old.items out.new.items result (lines_text (off_lines 0 map.now.off)) }
{
    for tile in 0..map.tiles() {
        push_mark(out, tile, !map.is_on(tile))?;
    }
    Ok(())
}

/// Appends the line of an attempt of a tile.
fn push_try(out: &mut Vec<u8>, map: &Map, tile: u32, attempt: &Attempt) -> Result<(), NoMemory>
    requires { tile < tiles_of map.now }
    ensures { Appends out.old.items out.new.items result (text_of_line (try_line map.now tile attempt.now)) }
{
    let across = tiles_across(map);
    let (width, height) = (map.tile_width(), map.tile_height());
    let x = tile % across * width + attempt.centre % width;
    let y = tile / across * height + attempt.centre / width;
    push_line(
        out,
        &[
            Field::Word(b"try"),
            Field::Number(tile as u64),
            Field::Number(x as u64),
            Field::Number(y as u64),
            Field::Seed(attempt.seed),
        ],
    )
}

/// Appends the lines of the attempts of a tile that are left.
fn push_tries(
    out: &mut Vec<u8>,
    plane: &Map,
    tile: u32,
    mut attempts: Attempts,
) -> Result<(), NoMemory>
    requires { tile < tiles_of plane.now }
    ensures { Appends out.old.items out.new.items result (lines_text (map (try_line plane.now tile) attempts)) }
{
    while let Some(attempt) = attempts.next() {
        push_try(out, plane, tile, &attempt)?;
    }
    Ok(())
}

/// Appends the lines of the attempts of all tiles.
#[tactic(auto, unfolding(crate::specs::Printed::try_lines))]
fn push_lists(alloc: Global, out: &mut Vec<u8>, world: &World) -> Result<(), NoMemory>
    requires { length world.now.plan.lists ≡ tiles_of (world_plane world.now) }
    ensures { Appends out.old.items out.new.items result (lines_text (try_lines (world_plane world.now) 0 world.now.plan.lists)) }
{
    for tile in 0..world.map.tiles() {
        let attempts = world.plan.of_tile(alloc, tile)?;
        push_tries(out, &world.map, tile, attempts)?;
    }
    Ok(())
}

/// Appends the lines of the attempts.
fn push_plan(alloc: Global, out: &mut Vec<u8>, world: &World) -> Result<(), NoMemory>
    requires { length world.now.plan.lists ≡ tiles_of (world_plane world.now) }
    ensures { Appends out.old.items out.new.items result (lines_text (plan_lines (world_plane world.now) world.now.plan.lists world.now.plan.origin)) }
{
    match world.plan.origin() {
        Some((seed, count)) => {
            push_line(out, &[Field::Word(b"seed"), Field::Number(seed)])?;
            push_line(out, &[Field::Word(b"attempts"), Field::Number(count)])
        }
        None => push_lists(alloc, out, world),
    }
}

/// Appends the line of an atom.
fn push_atom(out: &mut Vec<u8>, names: &[Name], placed: &Placed) -> Result<(), NoMemory>
    requires { (1 ≤ placed.now.atom.kind) × (placed.now.atom.kind ≤ length names.now) }
    ensures { Appends out.old.items out.new.items result (text_of_line (atom_line names.now placed.now)) }
{
    let name = &names[placed.atom.kind() as usize - 1];
    push_line(
        out,
        &[
            Field::Word(b"atom"),
            Field::Number(placed.x as u64),
            Field::Number(placed.y as u64),
            Field::Word(name.bytes()),
            Field::State(placed.atom.state()),
        ],
    )
}

/// Appends a line for each of these atoms, whose types have names. `NoMemory` if `out` can't grow.
pub fn push_atoms(out: &mut Vec<u8>, names: &[Name], atoms: &[Placed]) -> Result<(), NoMemory>
    requires { All (λ (p : Placed). (1 ≤ p.atom.kind) × (p.atom.kind ≤ length names.now)) atoms.now }
    ensures { Appends out.old.items out.new.items result (lines_text (map (atom_line names.now) atoms.now)) }
{
    for placed in atoms {
        push_atom(out, names, placed)?;
    }
    Ok(())
}

/// The fields of an `order` line.
fn order_fields(alloc: Global, turns: &[u32]) -> Result<Vec<Field<'static>>, NoMemory>
    ensures { IfOk result (λ v. map field_text v.items ≡ line_fields (order turns.now)) }
{
    let mut fields = Vec::new(alloc);
    fields.push(Field::Word(b"order"))?;
    for tile in turns {
        fields.push(Field::Number(*tile as u64))?;
    }
    Ok(fields)
}

/// Appends the line of the order, if there is one.
fn push_order(alloc: Global, out: &mut Vec<u8>, order: &Order) -> Result<(), NoMemory>
    ensures { Appends out.old.items out.new.items result (lines_text (order_lines (order_value order.now))) }
{
    match order {
        Order::Seed(seed) => push_line(
            out,
            &[
                Field::Word(b"order"),
                Field::Word(b"seed"),
                Field::Number(*seed),
            ],
        ),
        Order::List(turns) => push_turns(alloc, out, turns.as_slice()),
    }
}

/// Appends the line of the turns of a run, if there are any.
fn push_turns(alloc: Global, out: &mut Vec<u8>, turns: &[u32]) -> Result<(), NoMemory>
    ensures { Appends out.old.items out.new.items result (lines_text (order_lines (listed turns.now))) }
{
    if turns.is_empty() {
        return Ok(());
    }
    let fields = order_fields(alloc, turns)?;
    push_line(out, fields.as_slice())
}

/// Appends the text of a world that `name` gave with these names. It is of version 2 exactly when a
/// tile is off, and a plan that is drawn from a seed is printed as its seed and count. `NoMemory`
/// if there is none for the attempts of a tile or for the order, or `out` can't grow.
pub fn print(
    alloc: Global,
    world: &World,
    names: &[Name],
    out: &mut Vec<u8>,
) -> Result<(), NoMemory>
    requires { IsNamed names.now (world_value world.now) }
    ensures { Appends out.old.items out.new.items result (world_text names.now (world_value world.now)) }
{
    push_plane(out, &world.map)?;
    push_off(out, &world.map)?;
    push_plan(alloc, out, world)?;
    push_atoms(out, names, world.atoms.as_slice())?;
    push_order(alloc, out, &world.order)
}
