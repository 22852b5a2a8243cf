//! When calls come to their gate, and with which numbers.

use crate::calls::{gated, shelf};
use feast_base::{Gate, MemSink, Rest};
use feast_run::Status;
use std::alloc::Global;
use std::array::from_fn;
use std::sync::atomic::{AtomicU64, Ordering};
use std::test::Fail;
use std::thread::Threads;

/// The files that are there: elements, their code, worlds, and the report of the last of them.
const FILES: [(&str, &str); 8] = [
    (
        "e",
        "element Walker { EventWindow ew; Void behave() { ew.swap(0, 4); } }",
    ),
    (
        "c",
        "FEASTC\x01\0\0\x01\0\0\0\x06Walker\0\0\0\x01\0\0\0\x06behave\0\0\0\0\0\0\0\0\0\0\0\x04\0\0\0\0\0\0\0\0\0\0\0\0\0\0\0\0\0\0\0\x04\x0c0",
    ),
    ("one", "feast 1\ntiles 1 1\nsize 8 8\nseed 1\nattempts 7\n"),
    (
        "three",
        "feast 1\ntiles 3 1\nsize 8 8\nseed 1\nattempts 7\n",
    ),
    (
        "off",
        "feast 2\ntiles 3 1\nsize 8 8\noff 1\nseed 1\nattempts 7\n",
    ),
    (
        "uneven",
        "feast 1\ntiles 2 1\nsize 16 16\ntry 0 15 4 0000000000000000\ntry 1 16 4 0000000000000000\ntry 1 24 3 0000000000000000\ntry 1 25 3 0000000000000000\natom 15 4 Walker\n",
    ),
    (
        "walk",
        "feast 1\ntiles 1 1\nsize 8 8\ntry 0 3 4 0000000000000000\natom 3 4 Walker\n",
    ),
    (
        "j",
        "feast 1\natoms 1\n4 4 Walker 000000000000000000\njournal 1\n1 0 0 3 4 0000000000000000\nabandoned 0\n",
    ),
];

/// A gate to which each of four tiles is to come with its attempts in order, from 0 on.
#[derive(Drop)]
struct OrderGate {
    /// How many attempts of each tile have come.
    come: [AtomicU64; 4],
    /// How many calls had another number than that of the next attempt of their tile.
    strange: AtomicU64,
}

impl OrderGate {
    /// A gate to which nobody has come.
    fn new() -> OrderGate {
        OrderGate {
            come: from_fn(|_| AtomicU64::new(0)),
            strange: AtomicU64::new(0),
        }
    }

    /// Whether so many attempts of each tile have come, all in order.
    fn has_let(&self, attempts: &[u64; 4]) -> bool {
        for (come, count) in self.come.iter().zip(attempts) {
            if come.load(Ordering::SeqCst) != *count {
                return false;
            }
        }
        self.strange.load(Ordering::SeqCst) == 0
    }
}

impl Gate for OrderGate {
    fn reach(&self, tile: u32, attempt: u64) {
        let is_next = match self.come.get(tile as usize) {
            Some(come) => come.fetch_add(1, Ordering::SeqCst) == attempt,
            None => false,
        };
        if !is_next {
            self.strange.fetch_add(1, Ordering::SeqCst);
        }
    }
}

impl Rest for OrderGate {}

/// Whether a call is Done, and so many attempts of each tile come to its gate, all in order.
fn comes<R: Threads + Sync>(
    rt: &R,
    alloc: Global,
    text: &str,
    attempts: &[u64; 4],
) -> Result<bool, Fail> {
    let gate = OrderGate::new();
    let mut shelf = shelf(alloc, &FILES, Vec::new(alloc))?;
    let mut sink = MemSink::new(alloc, Vec::new(alloc), 10_000)?;
    let status = gated(rt, alloc, text, &mut shelf, &mut sink, &gate)?;
    Ok(status == Status::Done && gate.has_let(attempts))
}

/// Calls of each form, with the number of attempts of each tile that come to the gate. A tile that is off
/// has none, and so has each form but a run.
const CALLS: [(&str, [u64; 4]); 17] = [
    ("run one e", [7, 0, 0, 0]),
    ("run three e", [7, 7, 7, 0]),
    ("run off e", [7, 0, 7, 0]),
    ("run uneven e", [1, 3, 0, 0]),
    ("runpack one c", [7, 0, 0, 0]),
    ("runpack three c", [7, 7, 7, 0]),
    ("runpack off c", [7, 0, 7, 0]),
    ("runpack uneven c", [1, 3, 0, 0]),
    ("check e", [0; 4]),
    ("code e", [0; 4]),
    ("pack e", [0; 4]),
    ("step three e", [0; 4]),
    ("steppack three c", [0; 4]),
    ("replay walk j e", [0; 4]),
    ("audit walk j e", [0; 4]),
    ("rewind walk j 0 e", [0; 4]),
    ("gen 5", [0; 4]),
];

/// A run comes to the gate once before each attempt, with the number of the tile and that of the
/// attempt, in order. A worker that calls it with attempt 0 each time fails here, one that takes all
/// tiles but the first for one tile, and one that comes twice. No other form comes to the gate: a `step`
/// that calls it before its steps fails here.
#[test]
fn a_run_reaches_its_gate_before_each_attempt(rt: HostRuntime) -> Result<(), Fail> {
    for (text, attempts) in &CALLS {
        assert!(rt; comes(&rt, rt.alloc(), text, attempts)?, "{text}");
    }
    Ok(())
}
