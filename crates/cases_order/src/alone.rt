//! A plane of one tile, run by a worker, in phases, over the empty list of its edges.
ghost use Rattle.cell_grid.specs.Tried.{after_turn, idle-turn};

use crate::plans::{Shape, Try};
use crate::rows::is_printed_as;
use crate::running::run;
use bit_field::Atom;
use cell_grid::Behave;
use feast_base::{Gate, NoMemory, Rest};
use serial_order::Outcome;
use std::alloc::Global;
use std::process::Abort;
use std::sync::atomic::{AtomicU64, Ordering};
use std::test::Fail;
use std::thread::Threads;
use window_sites::Window;

/// Exchanges the centre and its eastern neighbour, unless the centre is empty, and counts its events
/// where others see them.
#[derive(Clone, Copy, Drop)]
struct Seen<'a> {
    events: &'a AtomicU64,
}

impl Behave for Seen<'_> {
    ghost after = { λ s. after_turn };

    ghost idle = { λ s. idle-turn };

    fn act(&mut self, window: &mut Window, _seed: u64) {
        self.events.fetch_add(1, Ordering::SeqCst);
        if window.get(0) != Atom::new(0, 0) {
            window.swap(0, 4);
        }
    }
}

/// A gate to which tile 0 is to come with attempt k after k events.
#[derive(Drop)]
struct Between<'a> {
    events: &'a AtomicU64,
    /// How many calls came too early, too late, or for another tile.
    strange: AtomicU64,
}

impl Gate for Between<'_> {
    fn reach(&self, tile: u32, attempt: u64) {
        if tile != 0 || self.events.load(Ordering::SeqCst) != attempt {
            self.strange.fetch_add(1, Ordering::SeqCst);
        }
    }
}

impl Rest for Between<'_> {}

/// One tile.
const ALONE: Shape = Shape {
    tx: 1,
    ty: 1,
    w: 8,
    h: 8,
};

/// Attempts where the atom is each time, and one where nothing is any more.
const TRIES: [Try; 4] = [
    Try {
        tile: 0,
        x: 3,
        y: 4,
    },
    Try {
        tile: 0,
        x: 4,
        y: 4,
    },
    Try {
        tile: 0,
        x: 5,
        y: 4,
    },
    Try {
        tile: 0,
        x: 3,
        y: 4,
    },
];

const JOURNAL: &str =
    "journal 4\n1 0 0 3 4 0000000000000000\n2 0 1 4 4 0000000000000000\n3 0 2 5 4 0000000000000000\n4 0 3 3 4 0000000000000000\nabandoned 0\n";

/// Whether the atom is three sites east of where it began.
fn has_moved(outcome: &Outcome) -> bool {
    match outcome.grid.atoms().get(4 * 8 + 6) {
        Some(atom) => *atom == Atom::new(1, 0),
        None => false,
    }
}

/// Whether the atom has moved, and the journal is the one of all attempts.
fn is_as_told<R: Threads + Sync>(
    rt: &R,
    alloc: Global,
    outcome: &Outcome,
) -> Result<bool, NoMemory> {
    Ok(has_moved(outcome) && is_printed_as(rt, alloc, &outcome.journal, JOURNAL)?)
}

/// A worker of the one tile makes each attempt an event, in order, and passes the gate between them.
/// A body that passes the gate for all attempts first, or after each event, fails here.
#[test]
fn a_tile_that_is_alone_passes_its_gate_between_its_events(rt: HostRuntime) -> Result<(), Fail> {
    let alloc = rt.alloc();
    let events = AtomicU64::new(0);
    let gate = Between {
        events: &events,
        strange: AtomicU64::new(0),
    };
    let seen = Seen { events: &events };
    let outcome = run(&rt, alloc, ALONE, (3, 4), &TRIES, seen, &gate)?;
    let is_as_told = is_as_told(&rt, alloc, &outcome);
    drop(outcome);
    assert!(rt; is_as_told?);
    assert!(rt; gate.strange.load(Ordering::SeqCst) == 0);
    Ok(())
}
