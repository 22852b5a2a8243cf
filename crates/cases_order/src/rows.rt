//! Worked runs, with the resulting atom and journal.
ghost use Rattle.tile_map.specs.Plane.{AreSizes};

use crate::acts::{Turner, Walker};
use crate::plans::{Shape, Try};
use crate::runs::run;
use bit_field::Atom;
use cell_grid::{Behave, Grid};
use event_journal::Journal;
use feast_base::{MemSink, NoMemory};
use report_text::write_report;
use serial_order::Outcome;
use std::alloc::Global;
use std::test::Fail;
use std::thread::Threads;

/// Two tiles side by side.
const PAIR: Shape = Shape {
    tx: 2,
    ty: 1,
    w: 16,
    h: 16,
};

/// Four tiles around one corner.
const CORNER: Shape = Shape {
    tx: 2,
    ty: 2,
    w: 8,
    h: 8,
};

/// A worked run: what it shows, where its atom begins, the attempts, the order of the first steps, the
/// place of the atom at the end in row order, its state then, and the journal.
struct Row {
    shows: &'static str,
    site: (u32, u32),
    tries: &'static [Try],
    order: &'static [u32],
    place: usize,
    state: u128,
    journal: &'static str,
}

/// An attempt of each of two tiles, on both sides of their border.
const AT_THE_BORDER: [Try; 2] = [
    Try {
        tile: 0,
        x: 15,
        y: 4,
    },
    Try {
        tile: 1,
        x: 16,
        y: 4,
    },
];

/// Two attempts of tile 0, of which the first is away from the border, and one of tile 1.
const AND_AWAY: [Try; 3] = [
    Try {
        tile: 0,
        x: 7,
        y: 4,
    },
    Try {
        tile: 0,
        x: 8,
        y: 4,
    },
    Try {
        tile: 1,
        x: 16,
        y: 4,
    },
];

/// An attempt of each of four tiles, around their corner.
const AT_THE_CORNER: [Try; 4] = [
    Try {
        tile: 0,
        x: 7,
        y: 7,
    },
    Try {
        tile: 1,
        x: 8,
        y: 7,
    },
    Try {
        tile: 3,
        x: 8,
        y: 8,
    },
    Try {
        tile: 2,
        x: 7,
        y: 8,
    },
];

/// Runs of two tiles.
const OF_TWO: [Row; 3] = [
    Row {
        shows: "an event sees what another tile wrote on its site",
        site: (15, 4),
        tries: &AT_THE_BORDER,
        order: &[0, 0, 0, 0, 0, 0, 1],
        place: 4 * 32 + 17,
        state: 0,
        journal: "journal 2\n1 0 0 15 4 0000000000000000\n2 1 0 16 4 0000000000000000\nabandoned 0\n",
    },
    Row {
        shows: "an attempt is given up where the edge is held",
        site: (15, 4),
        tries: &AT_THE_BORDER,
        order: &[0, 0, 1, 1],
        place: 4 * 32 + 16,
        state: 0,
        journal: "journal 1\n1 0 0 15 4 0000000000000000\nabandoned 1\n1 0 16 4 0 0 0\n",
    },
    Row {
        shows: "an event without an edge is not held up",
        site: (7, 4),
        tries: &AND_AWAY,
        order: &[1, 1, 0, 0, 0, 0, 0, 0],
        place: 4 * 32 + 8,
        state: 0,
        journal: "journal 2\n1 0 0 7 4 0000000000000000\n1 1 0 16 4 0000000000000000\nabandoned 1\n0 1 8 4 0 1 0\n",
    },
];

/// Runs of four tiles.
const OF_FOUR: [Row; 2] = [
    Row {
        shows: "an atom goes round a corner of four tiles",
        site: (7, 7),
        tries: &AT_THE_CORNER,
        order: &[
            0, 0, 0, 0, 0, 0, 0, 0, 0, 0, 1, 1, 1, 1, 1, 1, 1, 1, 1, 1, 3, 3, 3, 3, 3, 3, 3, 3, 3,
            3, 2, 2, 2, 2, 2, 2, 2, 2, 2, 2,
        ],
        place: 7 * 16 + 7,
        state: 3,
        journal: "journal 4\n1 0 0 7 7 0000000000000000\n2 1 0 8 7 0000000000000000\n3 3 0 8 8 0000000000000000\n4 2 0 7 8 0000000000000000\nabandoned 0\n",
    },
    Row {
        shows: "a holder that is given up itself is owed to an event",
        site: (7, 7),
        tries: &AT_THE_CORNER,
        order: &[3, 3, 3, 1, 1, 0, 0, 1, 1],
        place: 7 * 16 + 7,
        state: 0,
        journal: "journal 2\n1 2 0 7 8 0000000000000000\n2 3 0 8 8 0000000000000000\nabandoned 2\n0 0 7 7 0 1 0\n1 0 8 7 4 3 0\n",
    },
];

/// The place and the state of the one atom of a grid; none if there is no atom, or more than one.
fn lone(grid: &Grid) -> Option<(usize, u128)> {
    let mut found = None;
    for (place, atom) in grid.atoms().iter().enumerate() {
        if *atom != Atom::new(0, 0) {
            if found.is_some() {
                return None;
            }
            found = Some((place, atom.state()));
        }
    }
    found
}

/// What a report of an empty grid says before its journal.
const EMPTY: &[u8] = b"feast 1\natoms 0\n";

/// Whether a journal has this text, behind an empty grid.
pub fn is_printed_as<R: Threads + Sync>(
    rt: &R,
    alloc: Global,
    journal: &Journal,
    expected: &str,
) -> Result<bool, NoMemory> {
    let grid = Grid::new(alloc, 8, 8)?;
    let mut sink = MemSink::new(alloc, Vec::new(alloc), 4096)?;
    let put = write_report(rt, alloc, &grid, journal, &[], &mut sink);
    Ok(put.is_ok() && sink.written().strip_prefix(EMPTY) == Some(expected.as_bytes()))
}

/// Whether an outcome has the one atom and the journal of a row.
fn is_outcome<R: Threads + Sync>(
    rt: &R,
    alloc: Global,
    outcome: &Outcome,
    row: &Row,
) -> Result<bool, NoMemory> {
    if lone(&outcome.grid) != Some((row.place, row.state)) {
        return Ok(false);
    }
    is_printed_as(rt, alloc, &outcome.journal, row.journal)
}

/// Whether the run of a row on a plane of this shape ends as the row says. A row has at most 100 attempts.
fn ends_so<R: Threads + Sync, B: Behave + Copy + Drop>(
    rt: &R,
    alloc: Global,
    shape: Shape,
    row: &Row,
    behave: B,
) -> Result<bool, NoMemory>
    requires { AreSizes shape.tx shape.ty shape.w shape.h }
{
    if row.tries.len() > 100 {
        return Ok(false);
    }
    match run(alloc, shape, row.site, row.tries, row.order, behave)? {
        None => Ok(false),
        Some(outcome) => is_outcome(rt, alloc, &outcome, row),
    }
}

#[test]
fn two_tiles_come_to_their_border(rt: HostRuntime) -> Result<(), Fail> {
    for row in &OF_TWO {
        assert!(rt;
            ends_so(&rt, rt.alloc(), PAIR, row, Walker)?,
            "{}",
            row.shows
        );
    }
    Ok(())
}

#[test]
fn four_tiles_come_to_their_corner(rt: HostRuntime) -> Result<(), Fail> {
    for row in &OF_FOUR {
        assert!(rt;
            ends_so(&rt, rt.alloc(), CORNER, row, Turner)?,
            "{}",
            row.shows
        );
    }
    Ok(())
}
