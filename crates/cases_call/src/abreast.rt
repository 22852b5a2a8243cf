//! Runs of many tiles at a gate where no tile gets far ahead of another.

use crate::calls::{gated, shelf};
use feast_base::{Gate, MemSink, Rest};
use feast_run::Status;
use std::alloc::Global;
use std::array::from_fn;
use std::sync::atomic::{AtomicU64, Ordering};
use std::test::Fail;
use std::thread::{Threads, yield_now};

const WALKER: &str = "element Walker { EventWindow ew; Void behave() { ew.swap(0, 4); } }";

/// The same as a code file.
const CODE: &str =
    "FEASTC\x01\0\0\x01\0\0\0\x06Walker\0\0\0\x01\0\0\0\x06behave\0\0\0\0\0\0\0\0\0\0\0\x04\0\0\0\0\0\0\0\0\0\0\0\0\0\0\0\0\0\0\0\x04\x0c0";

/// The calls that run tiles in threads.
const CALLS: [&str; 2] = ["run w e", "runpack w c"];

/// The most tiles that a plane has.
const TILES: usize = 64;

/// The most turns for which a gate holds an attempt back. A turn yields the processor.
const MOST_TURNS: u32 = 20_000_000;

/// A world of several tiles.
struct Plane {
    world: &'static str,
    tiles: usize,
    /// The tiles that are off.
    off: &'static [usize],
    /// How many attempts each other tile has.
    attempts: u64,
}

const PLANES: [Plane; 6] = [
    Plane {
        world: "feast 1\ntiles 2 1\nsize 8 8\nseed 1\nattempts 20\natom 7 4 Walker\n",
        tiles: 2,
        off: &[],
        attempts: 20,
    },
    Plane {
        world: "feast 1\ntiles 2 2\nsize 8 8\nseed 2\nattempts 20\natom 7 7 Walker\n",
        tiles: 4,
        off: &[],
        attempts: 20,
    },
    Plane {
        world: "feast 1\ntiles 3 3\nsize 16 16\nseed 3\nattempts 10\natom 20 20 Walker\n",
        tiles: 9,
        off: &[],
        attempts: 10,
    },
    Plane {
        world: "feast 2\ntiles 3 3\nsize 8 8\noff 0\noff 4\nseed 4\nattempts 10\natom 8 2 Walker\n",
        tiles: 9,
        off: &[0, 4],
        attempts: 10,
    },
    Plane {
        world: "feast 1\ntiles 8 8\nsize 8 8\nseed 5\nattempts 6\natom 31 31 Walker\n",
        tiles: 64,
        off: &[],
        attempts: 6,
    },
    Plane {
        world: "feast 2\ntiles 8 8\nsize 8 8\noff 0\noff 9\noff 35\noff 63\nseed 6\nattempts 6\natom 31 31 Walker\n",
        tiles: 64,
        off: &[0, 9, 35, 63],
        attempts: 6,
    },
];

impl Plane {
    /// Whether there is a tile with this number, and it is on.
    fn is_on(&self, tile: usize) -> bool {
        tile < self.tiles && !self.off.contains(&tile)
    }

    /// How many attempts of a tile come to the gate in all.
    fn wanted(&self, tile: usize) -> u64 {
        if self.is_on(tile) { self.attempts } else { 0 }
    }
}

/// A gate at which each attempt but the first of its tile waits until every other tile that is on has
/// come with the attempt before. Once an attempt has waited in vain, none waits any more.
#[derive(Drop)]
struct AbreastGate<'a> {
    plane: &'a Plane,
    /// How many attempts of each tile have come.
    come: [AtomicU64; TILES],
    /// How many calls had another number than that of the next attempt of their tile.
    strange: AtomicU64,
    /// How many attempts waited in vain.
    missed: AtomicU64,
}

impl<'a> AbreastGate<'a> {
    /// A gate to which nobody has come.
    fn new(plane: &'a Plane) -> AbreastGate<'a> {
        AbreastGate {
            plane,
            come: from_fn(|_| AtomicU64::new(0)),
            strange: AtomicU64::new(0),
            missed: AtomicU64::new(0),
        }
    }

    /// Notes an attempt, and whether it is the next of its tile.
    fn note(&self, tile: u32, attempt: u64) {
        let is_next = match self.come.get(tile as usize) {
            Some(come) => come.fetch_add(1, Ordering::SeqCst) == attempt,
            None => false,
        };
        if !is_next {
            self.strange.fetch_add(1, Ordering::SeqCst);
        }
    }

    /// Whether every tile that is on has come with this many attempts.
    fn have_all_come(&self, attempts: u64) -> bool {
        for (tile, come) in self.come.iter().enumerate() {
            if come.load(Ordering::SeqCst) < attempts && self.plane.is_on(tile) {
                return false;
            }
        }
        true
    }

    /// Waits until every tile that is on has come with this many attempts, for at most as many turns as
    /// it may.
    fn wait(&self, attempts: u64) {
        for _turn in 0..MOST_TURNS {
            if self.missed.load(Ordering::SeqCst) != 0 || self.have_all_come(attempts) {
                return;
            }
            yield_now();
        }
        self.missed.fetch_add(1, Ordering::SeqCst);
    }

    /// Whether each tile has come with its attempts, in order and no others, and none waited in vain.
    fn is_passed(&self) -> bool {
        for (tile, come) in self.come.iter().enumerate() {
            if come.load(Ordering::SeqCst) != self.plane.wanted(tile) {
                return false;
            }
        }
        self.strange.load(Ordering::SeqCst) == 0 && self.missed.load(Ordering::SeqCst) == 0
    }
}

impl Gate for AbreastGate<'_> {
    fn reach(&self, tile: u32, attempt: u64) {
        self.note(tile, attempt);
        self.wait(attempt);
    }
}

impl Rest for AbreastGate<'_> {}

/// Whether a call over a plane's world is Done, and passes its gate so.
fn passes<R: Threads + Sync>(
    rt: &R,
    alloc: Global,
    text: &str,
    plane: &Plane,
) -> Result<bool, Fail> {
    let gate = AbreastGate::new(plane);
    let files = [("w", plane.world), ("e", WALKER), ("c", CODE)];
    let mut shelf = shelf(alloc, &files, Vec::new(alloc))?;
    let mut sink = MemSink::new(alloc, Vec::new(alloc), 1_000_000)?;
    let status = gated(rt, alloc, text, &mut shelf, &mut sink, &gate)?;
    Ok(status == Status::Done && gate.is_passed())
}

/// All tiles of a plane work side by side, however many there are. A run with fewer threads than tiles
/// fails here, as one that runs more than four tiles on one thread, or two at a time, and one whose
/// workers don't all come to the gate.
#[test]
fn no_tile_gets_ahead_of_another(rt: HostRuntime) -> Result<(), Fail> {
    for plane in &PLANES {
        for text in &CALLS {
            assert!(rt;
                passes(&rt, rt.alloc(), text, plane)?,
                "{text}: {} tiles",
                plane.tiles
            );
        }
    }
    Ok(())
}
