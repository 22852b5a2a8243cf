//! Printing a chain.
ghost use Rattle.std.specs.Prelude.{◌≡◌, ◌≤◌, ◌∷◌, ◌++◌, [], All, decimal, length, map};
ghost use Rattle.bit_field.specs.Atom.{AtomValue};
ghost use Rattle.chain_text.specs.Chain.{IsChain};
ghost use Rattle.chain_text.specs.Line.{header};
ghost use Rattle.chain_text.specs.Printed.{HasSides, IsPrintable, act_fields, act_lines, area_fields, chain_text, chance_text, count_lines, every_line, first_lines, journal_lines, lines_text, number_lines, once_line, plane_lines, print_lines, said_act, said_area, size_lines, text_of_line};
ghost use Rattle.chain_text.specs.Values.{chain_value};
ghost use Rattle.feast_base.specs.Appending.{Appends};
ghost use Rattle.feast_base.specs.Digits.{hex};
ghost use Rattle.feast_base.specs.TypeNames.{name_of};
ghost use Rattle.plane_acts.specs.declared.act.Act.TheVariants.{Put};
ghost use Rattle.plane_acts.specs.declared.schedule.Every.{Every};
ghost use Rattle.plane_acts.specs.declared.schedule.Once.{Once};
ghost use Rattle.text_lines.specs.Lines.{ended_line};
ghost use Rattle.tile_map.specs.Plane.{IsMap};

use crate::chain::{Chain, Journal};
use crate::chance::fraction_text;
use bit_field::Atom;
use cell_grid::Rectangle;
use feast_base::{Name, NoMemory};
use plane_acts::{Act, BILLION, Chance, Every, Once, Schedule};
use text_lines::{Field, push_line};
use tile_map::Map;
use world_text::{push_atoms, push_off};

/// Appends a line of two words.
fn push_words<'a>(out: &mut Vec<u8>, word: &'a [u8], value: &'a [u8]) -> Result<(), NoMemory>
    ensures { Appends out.old.items out.new.items result (ended_line (word.now ∷ value.now ∷ [])) }
{
    push_line(out, &[Field::Word(word), Field::Word(value)])
}

/// Appends the header.
fn push_header(out: &mut Vec<u8>) -> Result<(), NoMemory>
    ensures { Appends out.old.items out.new.items result (text_of_line header) }
{
    push_words(out, b"chain", b"1")
}

/// Appends a line of a word and a number.
fn push_one(out: &mut Vec<u8>, word: &[u8], n: u64) -> Result<(), NoMemory>
    ensures { Appends out.old.items out.new.items result (ended_line (word.now ∷ decimal n ∷ [])) }
{
    push_line(out, &[Field::Word(word), Field::Number(n)])
}

/// Appends a line of a word and two numbers.
fn push_two(out: &mut Vec<u8>, word: &[u8], a: u32, b: u32) -> Result<(), NoMemory>
    ensures { Appends out.old.items out.new.items result (ended_line (word.now ∷ decimal a ∷ decimal b ∷ [])) }
{
    push_line(
        out,
        &[
            Field::Word(word),
            Field::Number(a as u64),
            Field::Number(b as u64),
        ],
    )
}

/// How many tiles a row of a map's tiles has.
fn tiles_across(map: &Map) -> u32
    ensures value { result ≡ map.now.tx }
    ensures valid { IsMap map.now }
{
    map.width() / map.tile_width()
}

/// How many tiles a column of a map's tiles has.
fn tiles_down(map: &Map) -> u32
    ensures value { result ≡ map.now.ty }
{
    map.height() / map.tile_height()
}

/// Appends the lines that say how many tiles there are, and their size.
fn push_sizes(out: &mut Vec<u8>, map: &Map) -> Result<(), NoMemory>
    ensures { Appends out.old.items out.new.items result (lines_text (size_lines map.now)) }
{
    push_two(out, b"tiles", tiles_across(map), tiles_down(map))?;
    push_two(out, b"size", map.tile_width(), map.tile_height())
}

/// Appends the header and the lines of the tiles' number and size.
fn push_plane(out: &mut Vec<u8>, map: &Map) -> Result<(), NoMemory>
    ensures { Appends out.old.items out.new.items result (lines_text (plane_lines map.now)) }
{
    push_header(out)?;
    push_sizes(out, map)
}

/// Appends the lines of the seed, the attempts and the number of legs.
fn push_counts(out: &mut Vec<u8>, chain: &Chain) -> Result<(), NoMemory>
    ensures { Appends out.old.items out.new.items result (lines_text (count_lines (chain_value chain.now))) }
{
    push_one(out, b"seed", chain.seed)?;
    push_one(out, b"attempts", chain.attempts)?;
    push_one(out, b"legs", chain.legs as u64)
}

/// Appends the line of the first leg, if that isn't leg 1.
fn push_first(out: &mut Vec<u8>, first: u32) -> Result<(), NoMemory>
    ensures { Appends out.old.items out.new.items result (lines_text (first_lines first)) }
{
    if first == 1 {
        Ok(())
    } else {
        push_one(out, b"first", first as u64)
    }
}

/// Appends the line that says which legs have a report, if not all have one.
fn push_print(out: &mut Vec<u8>, print: u32) -> Result<(), NoMemory>
    ensures { Appends out.old.items out.new.items result (lines_text (print_lines print)) }
{
    if print == 1 {
        Ok(())
    } else {
        push_one(out, b"print", print as u64)
    }
}

/// Appends the lines that say which reports the legs have, if those aren't whole.
fn push_journal(out: &mut Vec<u8>, journal: Journal) -> Result<(), NoMemory>
    ensures { Appends out.old.items out.new.items result (lines_text (journal_lines journal)) }
{
    match journal {
        Journal::Whole => Ok(()),
        Journal::Short => push_words(out, b"journal", b"short"),
        Journal::Counts { print } => {
            push_words(out, b"journal", b"none")?;
            push_print(out, print)
        }
    }
}

/// Appends the lines of a chain's numbers.
fn push_numbers(out: &mut Vec<u8>, chain: &Chain) -> Result<(), NoMemory>
    ensures { Appends out.old.items out.new.items result (lines_text (number_lines (chain_value chain.now))) }
{
    push_counts(out, chain)?;
    push_first(out, chain.first)?;
    push_journal(out, chain.journal)
}

/// Appends the line of an act that has an area alone.
fn push_area<'a>(
    out: &mut Vec<u8>,
    word: &'a [u8],
    number: u32,
    verb: &'a [u8],
    area: &Rectangle,
) -> Result<(), NoMemory>
    requires { HasSides area.now }
    ensures { Appends out.old.items out.new.items result (ended_line (word.now ∷ decimal number ∷ verb.now ∷ area_fields (said_area area.now))) }
{
    push_line(
        out,
        &[
            Field::Word(word),
            Field::Number(number as u64),
            Field::Word(verb),
            Field::Number(area.left as u64),
            Field::Number(area.top as u64),
            Field::Number((area.right - area.left) as u64),
            Field::Number((area.bottom - area.top) as u64),
        ],
    )
}

/// Appends the line of an act that puts an atom.
fn push_put<'a>(
    out: &mut Vec<u8>,
    names: &'a [Name],
    word: &'a [u8],
    number: u32,
    area: &Rectangle,
    atom: Atom,
) -> Result<(), NoMemory>
    requires area { HasSides area.now }
    requires name { (1 ≤ atom.kind) × (atom.kind ≤ length names.now) }
    ensures { Appends out.old.items out.new.items result (ended_line (word.now ∷ decimal number ∷ act_fields (said_act names.now (Put area.now atom)))) }
{
    let name = &names[atom.kind() as usize - 1];
    push_line(
        out,
        &[
            Field::Word(word),
            Field::Number(number as u64),
            Field::Word(b"put"),
            Field::Number(area.left as u64),
            Field::Number(area.top as u64),
            Field::Number((area.right - area.left) as u64),
            Field::Number((area.bottom - area.top) as u64),
            Field::Word(name.bytes()),
            Field::State(atom.state()),
        ],
    )
}

/// Appends the line of an act with a chance of this text.
fn push_likely<'a>(
    out: &mut Vec<u8>,
    word: &'a [u8],
    number: u32,
    verb: &'a [u8],
    chance: &'a [u8],
    area: &Rectangle,
) -> Result<(), NoMemory>
    requires { HasSides area.now }
    ensures { Appends out.old.items out.new.items result (ended_line (word.now ∷ decimal number ∷ verb.now ∷ chance.now ∷ area_fields (said_area area.now))) }
{
    push_line(
        out,
        &[
            Field::Word(word),
            Field::Number(number as u64),
            Field::Word(verb),
            Field::Word(chance),
            Field::Number(area.left as u64),
            Field::Number(area.top as u64),
            Field::Number((area.right - area.left) as u64),
            Field::Number((area.bottom - area.top) as u64),
        ],
    )
}

/// Appends the line of an act with a chance.
fn push_chance(
    out: &mut Vec<u8>,
    word: &[u8],
    number: u32,
    verb: &[u8],
    chance: Chance,
    area: &Rectangle,
) -> Result<(), NoMemory>
    requires { HasSides area.now }
    ensures { Appends out.old.items out.new.items result (ended_line (word.now ∷ decimal number ∷ verb.now ∷ chance_text chance ∷ area_fields (said_area area.now))) }
{
    let billionths = chance.billionths();
    if billionths == 0 {
        return push_likely(out, word, number, verb, b"0", area);
    }
    if billionths == BILLION {
        return push_likely(out, word, number, verb, b"1", area);
    }
    let text = fraction_text(billionths);
    push_likely(out, word, number, verb, text.as_slice(), area)
}

/// Appends the line of an act, which begins with a word and a number.
fn push_act(
    out: &mut Vec<u8>,
    names: &[Name],
    word: &[u8],
    number: u32,
    act: &Act,
) -> Result<(), NoMemory>
    requires { IsPrintable (length names.now) act.now }
    ensures { Appends out.old.items out.new.items result (ended_line (word.now ∷ decimal number ∷ act_fields (said_act names.now act.now))) }
{
    match act {
        Act::Clear(area) => push_area(out, word, number, b"clear", area),
        Act::Put(area, atom) => push_put(out, names, word, number, area, *atom),
        Act::Erase(chance, area) => push_chance(out, word, number, b"erase", *chance, area),
        Act::Flip(chance, area) => push_chance(out, word, number, b"flip", *chance, area),
        Act::Attempts(count) => push_line(
            out,
            &[
                Field::Word(word),
                Field::Number(number as u64),
                Field::Word(b"attempts"),
                Field::Number(*count as u64),
            ],
        ),
    }
}

/// Appends the lines of the acts of many legs.
fn push_every(out: &mut Vec<u8>, names: &[Name], acts: &[Every]) -> Result<(), NoMemory>
    requires { All (λ (e : Every). IsPrintable (length names.now) e.act) acts.now }
    ensures { Appends out.old.items out.new.items result (lines_text (map (every_line names.now) acts.now)) }
{
    for every in acts {
        push_act(out, names, b"every", every.period, &every.act)?;
    }
    Ok(())
}

/// Appends the lines of the acts of one leg each.
fn push_once(out: &mut Vec<u8>, names: &[Name], acts: &[Once]) -> Result<(), NoMemory>
    requires { All (λ (o : Once). IsPrintable (length names.now) o.act) acts.now }
    ensures { Appends out.old.items out.new.items result (lines_text (map (once_line names.now) acts.now)) }
{
    for once in acts {
        push_act(out, names, b"act", once.leg, &once.act)?;
    }
    Ok(())
}

/// Appends the lines of the acts.
fn push_acts(out: &mut Vec<u8>, names: &[Name], schedule: &Schedule) -> Result<(), NoMemory>
    requires every { All (λ (e : Every). IsPrintable (length names.now) e.act) schedule.now.every }
    requires once { All (λ (o : Once). IsPrintable (length names.now) o.act) schedule.now.once }
    ensures { Appends out.old.items out.new.items result (lines_text (act_lines names.now schedule.now)) }
{
    push_every(out, names, schedule.every())?;
    push_once(out, names, schedule.once())
}

/// Appends the text of a chain that `name` gave with these names. The lines `first`, `journal` and
/// `print` stand only where they say something else than a text without them. A chance that is
/// neither 0 nor 1 has nine digits, and a state 18. `NoMemory` if `out` can't grow.
pub fn print(chain: &Chain, names: &[Name], out: &mut Vec<u8>) -> Result<(), NoMemory>
    requires { IsChain names.now (chain_value chain.now) }
    ensures { Appends out.old.items out.new.items result (chain_text names.now (chain_value chain.now)) }
{
    push_plane(out, &chain.map)?;
    push_off(out, &chain.map)?;
    push_numbers(out, chain)?;
    push_acts(out, names, &chain.schedule)?;
    push_atoms(out, names, chain.atoms.as_slice())
}
