//! The steps of two tiles at their common border, with the phases and entries compared.
ghost use Rattle.cases_tile.specs.Pairs.{AreTwo};

use crate::pair::{Pair, Side};
use cell_grid::Record;
use event_journal::Abandoned;
use feast_base::NoMemory;
use std::alloc::Global;
use std::process::Abort;
use tile_core::Phase;

/// The phases that follow the steps of a whole attempt that needs an edge.
const WHOLE: [Phase; 6] = [
    Phase::Lock,
    Phase::Refresh,
    Phase::Behave,
    Phase::Write,
    Phase::Give,
    Phase::Finished,
];

/// The event of tile 0.
const FIRST: Record = Record {
    stamp: 1,
    tile: 0,
    attempt: 0,
    x: 15,
    y: 4,
    seed: 0,
};

/// The event of tile 1, after it.
const SECOND: Record = Record {
    stamp: 2,
    tile: 1,
    attempt: 0,
    x: 16,
    y: 4,
    seed: 0,
};

/// Steps of both tiles, of which tile 1 comes to the edge while tile 0 has it.
const CROSSED: [Side; 8] = [
    Side::Left,
    Side::Left,
    Side::Right,
    Side::Right,
    Side::Left,
    Side::Left,
    Side::Left,
    Side::Left,
];

/// The phases that follow these.
const CROSSED_PHASES: [Phase; 8] = [
    Phase::Lock,
    Phase::Refresh,
    Phase::Lock,
    Phase::Finished,
    Phase::Behave,
    Phase::Write,
    Phase::Give,
    Phase::Finished,
];

/// The attempt that tile 1 gives up then.
const GIVEN_UP: Abandoned = Abandoned {
    tile: 1,
    attempt: 0,
    x: 16,
    y: 4,
    edge: 0,
    holder: 0,
    holder_attempt: 0,
};

/// Makes these steps, and answers whether these phases follow them.
fn leads_to(
    pair: &mut Pair,
    alloc: Global,
    order: &[Side],
    expected: &[Phase],
) -> Result<bool, NoMemory>
    requires { AreTwo pair.old.map pair.old.left.core pair.old.right.core pair.old.board.board }
    ensures { AreTwo pair.new.map pair.new.left.core pair.new.right.core pair.new.board.board }
{
    let phases = pair.steps(alloc, order)?;
    Ok(phases.as_slice() == expected)
}

/// Whether each tile has this one event, and gave up nothing.
fn has_events(pair: &Pair, left: Record, right: Record) -> bool {
    pair.left.records() == [left].as_slice()
        && pair.right.records() == [right].as_slice()
        && pair.left.abandoned().len() == 0
        && pair.right.abandoned().len() == 0
}

/// That each tile makes its event, tile 1 after tile 0, and that tile 1 reads what tile 0 wrote.
fn make_both_events(rt: &impl Abort, alloc: Global, pair: &mut Pair)
    requires { AreTwo pair.old.map pair.old.left.core pair.old.right.core pair.old.board.board }
{
    let whole = leads_to(pair, alloc, &[Side::Left; 6], &WHOLE).expect(rt, "there is room");
    assert!(rt; whole && pair.board.cells == 0);
    let whole = leads_to(pair, alloc, &[Side::Right; 6], &WHOLE).expect(rt, "there is room");
    assert!(rt; whole && has_events(pair, FIRST, SECOND));
    assert!(rt; pair.board.cells == 32);
    assert!(rt; pair.news_bits(0) == 40 && pair.news_bits(1) == 8);
}

#[test]
fn a_tile_reads_what_its_neighbour_wrote_and_no_more(rt: HostRuntime) -> Result<(), NoMemory> {
    let mut pair = Pair::new(rt.alloc())?;
    make_both_events(&rt, rt.alloc(), &mut pair);
    Ok(())
}

/// That tile 1 gives its attempt up, and tile 0 makes its event.
fn give_one_up(rt: &impl Abort, alloc: Global, pair: &mut Pair)
    requires { AreTwo pair.old.map pair.old.left.core pair.old.right.core pair.old.board.board }
{
    let crossed = leads_to(pair, alloc, &CROSSED, &CROSSED_PHASES).expect(rt, "there is room");
    assert!(rt; crossed && pair.right.abandoned() == [GIVEN_UP].as_slice());
    assert!(rt; pair.left.records().len() == 1 && pair.right.records().len() == 0);
}

#[test]
fn a_tile_gives_up_at_an_edge_that_its_neighbour_has(rt: HostRuntime) -> Result<(), NoMemory> {
    let mut pair = Pair::new(rt.alloc())?;
    give_one_up(&rt, rt.alloc(), &mut pair);
    Ok(())
}
