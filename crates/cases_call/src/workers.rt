//! Runs of several tiles whose workers a gate holds back, or nobody.

use crate::calls::{gated, shelf};
use feast_base::{Gate, MemSink, OpenGate, Rest};
use feast_run::Status;
use std::alloc::Global;
use std::sync::atomic::{AtomicU64, Ordering};
use std::test::Fail;
use std::thread::{Threads, yield_now};

const WALKER: &str = "element Walker { EventWindow ew; Void behave() { ew.swap(0, 4); } }";

const COUNTER: &str = "ulam 5;
use EventWindow;
use Random;
quark Tally {
  Unsigned(5) count;
  Void bump() { count += 1; }
}
element Counter {
  EventWindow ew;
  Random random;
  Tally tally;
  Bool met;
  Void behave() {
    Unsigned i = random.create(4) + 1;
    Atom other = ew[i];
    if (other as Counter) {
      if (other.met) { met = true; }
      tally.bump();
    }
    else if (other is Empty) ew.swap(0, i);
  }
}
";

/// Two tiles, and an attempt of each at their border.
const BORDER: &str = "feast 1
tiles 2 1
size 16 16
try 0 15 4 0000000000000000
try 1 16 4 0000000000000000
atom 15 4 Walker
";

/// The same with a further attempt of tile 0, away from the border.
const BORDER_THEN_ZERO: &str = "feast 1
tiles 2 1
size 16 16
try 0 15 4 0000000000000000
try 1 16 4 0000000000000000
try 0 3 3 0000000000000000
atom 15 4 Walker
";

/// The same with a further attempt of tile 1, away from the border.
const BORDER_THEN_ONE: &str = "feast 1
tiles 2 1
size 16 16
try 0 15 4 0000000000000000
try 1 16 4 0000000000000000
try 1 24 3 0000000000000000
atom 15 4 Walker
";

/// Two tiles with many attempts each.
const MANY: &str = "feast 1
tiles 2 1
size 16 16
seed 7
attempts 2000
atom 15 4 Walker
";

/// Four tiles with an atom each at the corner where they meet.
const CORNER: &str = "feast 1
tiles 2 2
size 16 16
seed 7
attempts 200
atom 15 15 Counter
atom 16 15 Counter
atom 15 16 Counter
atom 16 16 Counter
";

/// The most turns for which a gate holds an attempt back. A turn yields the processor, as those of a worker do that
/// waits for the tile that is held back: other work on the machine makes the turns of both longer. That
/// worker has patience for some hundred turns.
const MOST_TURNS: u32 = 100_000_000;

/// An attempt that is held back until the other of two tiles has come to the gate with an attempt of
/// its own.
struct Keep {
    tile: u32,
    attempt: u64,
    /// The other tile's attempt.
    until: u64,
}

/// A gate that holds back some attempts of two tiles. It finally lets an attempt go if nobody
/// comes.
#[derive(Drop)]
struct KeepingGate<'a> {
    keeps: &'a [Keep],
    /// How many attempts of tile 0 have come, in order from 0 on.
    zero: AtomicU64,
    /// The same of tile 1.
    one: AtomicU64,
    /// How many were let go though nobody came.
    missed: AtomicU64,
}

impl<'a> KeepingGate<'a> {
    /// A gate to which nobody has come.
    fn new(keeps: &'a [Keep]) -> KeepingGate<'a> {
        KeepingGate {
            keeps,
            zero: AtomicU64::new(0),
            one: AtomicU64::new(0),
            missed: AtomicU64::new(0),
        }
    }

    /// How many attempts of tile 0, or of the other tile, have come.
    fn come(&self, tile: u32) -> &AtomicU64 {
        if tile == 0 { &self.zero } else { &self.one }
    }

    /// Notes an attempt, if it is the next of its tile: only its own tile's worker notes it.
    fn note(&self, tile: u32, attempt: u64) {
        let come = self.come(tile);
        if come.load(Ordering::SeqCst) == attempt {
            come.fetch_add(1, Ordering::SeqCst);
        }
    }

    /// Waits until the other tile has come with this attempt, for at most as many turns as it may.
    fn wait(&self, tile: u32, until: u64) {
        for _turn in 0..MOST_TURNS {
            if self.come(1 - tile.min(1)).load(Ordering::SeqCst) > until {
                return;
            }
            yield_now();
        }
        self.missed.fetch_add(1, Ordering::SeqCst);
    }
}

impl Gate for KeepingGate<'_> {
    fn reach(&self, tile: u32, attempt: u64) {
        self.note(tile, attempt);
        for keep in self.keeps {
            if keep.tile == tile && keep.attempt == attempt {
                self.wait(tile, keep.until);
            }
        }
    }
}

impl Rest for KeepingGate<'_> {}

/// What a call over these files appends. It has to be Done.
fn shown<R: Threads + Sync, G: Gate>(
    rt: &R,
    alloc: Global,
    text: &str,
    files: &[(&str, &str)],
    gate: &G,
) -> Result<String, Fail> {
    let mut shelf = shelf(alloc, files, Vec::new(alloc))?;
    let mut sink = MemSink::new(alloc, Vec::new(alloc), 1_000_000)?;
    let Status::Done = gated(rt, alloc, text, &mut shelf, &mut sink, gate)? else {
        return Err(Fail::from("the call is not Done"));
    };
    match str::from_utf8(sink.written()) {
        Ok(text) => Ok(String::from_str(alloc, text)?),
        Err(_) => Err(Fail::from("what it appends is no text")),
    }
}

/// The atoms of the replay of a report.
fn replayed<'a, R: Threads + Sync>(
    rt: &R,
    alloc: Global,
    world: &'a str,
    element: &'a str,
    report: &'a str,
) -> Result<String, Fail> {
    let files = [("w", world), ("e", element), ("j", report)];
    shown(rt, alloc, "replay w j e", &files, &OpenGate)
}

/// The report of a run, and the atoms of its replay.
fn run_and_replay<'a, R: Threads + Sync, G: Gate>(
    rt: &R,
    alloc: Global,
    world: &'a str,
    element: &'a str,
    gate: &G,
) -> Result<(String, String), Fail> {
    let report = shown(rt, alloc, "run w e", &[("w", world), ("e", element)], gate)?;
    let atoms = replayed(rt, alloc, world, element, report.as_str())?;
    Ok((report, atoms))
}

/// Whether a report begins with these atoms, and goes on with its journal.
fn has_atoms(report: &str, atoms: &str) -> bool {
    match report.strip_prefix(atoms) {
        Some(rest) => rest.starts_with("journal "),
        None => false,
    }
}

/// How many events and abandoned attempts a report has: the numbers after these two words.
fn entries(report: &str) -> u64 {
    let mut sum = 0u64;
    for line in report.lines() {
        let digits = match line.split_once(' ') {
            Some(("journal" | "abandoned", digits)) => digits,
            _ => continue,
        };
        if let Ok(count) = digits.parse::<u64>() {
            sum = sum.saturating_add(count);
        }
    }
    sum
}

/// Whether a run has this many entries and is replayed to its own atoms, and its report is this one, if
/// one is given.
fn is_replayed<'a, R: Threads + Sync, G: Gate>(
    rt: &R,
    alloc: Global,
    (world, element): (&'a str, &'a str),
    gate: &G,
    count: u64,
    report: Option<&str>,
) -> Result<bool, Fail> {
    let (shown, atoms) = run_and_replay(rt, alloc, world, element, gate)?;
    let told = match report {
        Some(report) => shown.as_str() == report,
        None => true,
    };
    Ok(told && has_atoms(shown.as_str(), atoms.as_str()) && entries(shown.as_str()) == count)
}

/// A run some attempts of which are held back.
struct Held {
    /// What it shows.
    about: &'static str,
    world: &'static str,
    keeps: &'static [Keep],
    /// How many entries its report has.
    count: u64,
    /// Its report, if that is known.
    report: Option<&'static str>,
}

impl Held {
    /// Whether the run is replayed and has that report, and the gate let nobody go in vain.
    fn is_met<R: Threads + Sync>(&self, rt: &R, alloc: Global) -> Result<bool, Fail> {
        let gate = KeepingGate::new(self.keeps);
        let run = (self.world, WALKER);
        let is_replayed = is_replayed(rt, alloc, run, &gate, self.count, self.report)?;
        Ok(is_replayed && gate.missed.load(Ordering::SeqCst) == 0)
    }
}

/// The first attempts of two tiles, which are held back until the other tile comes.
///
/// A run on one thread fails where both are held back, whichever tile acts first. Where one is held back
/// for the other's attempt 1, nobody has the edge when it comes: a worker that gives up at an edge that
/// nobody holds fails there, and one that calls its gate with attempt 0 alone. A run in an order of its
/// own, whatever its gates let through, fails at one of these two. And a gate may hold a tile back for
/// long: a worker that waits without end for one that is far behind fails at the last two.
const HELD: [Held; 5] = [
    Held {
        about: "two workers are at the gate at once",
        world: BORDER,
        keeps: &[
            Keep {
                tile: 0,
                attempt: 0,
                until: 0,
            },
            Keep {
                tile: 1,
                attempt: 0,
                until: 0,
            },
        ],
        count: 2,
        report: None,
    },
    Held {
        about: "the higher tile comes second",
        world: BORDER_THEN_ZERO,
        keeps: &[Keep {
            tile: 1,
            attempt: 0,
            until: 1,
        }],
        count: 3,
        report: Some(
            "feast 1\natoms 1\n17 4 Walker 000000000000000000\njournal 3\n1 0 0 15 4 0000000000000000\n2 0 1 3 3 0000000000000000\n2 1 0 16 4 0000000000000000\nabandoned 0\n",
        ),
    },
    Held {
        about: "the lower tile comes second",
        world: BORDER_THEN_ONE,
        keeps: &[Keep {
            tile: 0,
            attempt: 0,
            until: 1,
        }],
        count: 3,
        report: Some(
            "feast 1\natoms 1\n16 4 Walker 000000000000000000\njournal 3\n1 1 0 16 4 0000000000000000\n2 0 0 15 4 0000000000000000\n2 1 1 24 3 0000000000000000\nabandoned 0\n",
        ),
    },
    Held {
        about: "the lower tile is held back until the higher comes with its thousandth attempt",
        world: MANY,
        keeps: &[Keep {
            tile: 0,
            attempt: 0,
            until: 999,
        }],
        count: 4000,
        report: None,
    },
    Held {
        about: "the higher tile is held back until the lower comes with its thousandth attempt",
        world: MANY,
        keeps: &[Keep {
            tile: 1,
            attempt: 0,
            until: 999,
        }],
        count: 4000,
        report: None,
    },
];

#[test]
fn tiles_that_are_held_back_come_later(rt: HostRuntime) -> Result<(), Fail> {
    for held in &HELD {
        assert!(rt; held.is_met(&rt, rt.alloc())?, "{}", held.about);
    }
    Ok(())
}

#[test]
fn each_attempt_of_four_tiles_is_an_entry(rt: HostRuntime) -> Result<(), Fail> {
    for _run in 0..10 {
        assert!(rt; is_replayed(&rt, rt.alloc(), (CORNER, COUNTER), &OpenGate, 800, None)?);
    }
    Ok(())
}
