//! Chains: the report of each leg is put before the next leg begins.

use crate::calls::{shelf, words};
use feast_base::{MemSink, OpenGate, Stop};
use feast_run::{Status, feast_in_memory};
use std::alloc::Global;
use std::test::Fail;
use std::thread::Threads;

/// The files that are there: one chain is the first leg of the other.
const FILES: [(&str, &str); 3] = [
    (
        "e",
        "element Walker { EventWindow ew; Void behave() { ew.swap(0, 4); } }",
    ),
    (
        "one",
        "chain 1\ntiles 1 1\nsize 8 8\nseed 7\nattempts 5\nlegs 1\nevery 1 flip 0.5 0 0 8 8\natom 3 4 Walker\n",
    ),
    (
        "three",
        "chain 1\ntiles 1 1\nsize 8 8\nseed 7\nattempts 5\nlegs 3\nevery 1 flip 0.5 0 0 8 8\natom 3 4 Walker\n",
    ),
];

/// How a call ends if this put fails: its status, the bytes that the sink has, and how many puts it was
/// asked for.
fn ended<R: Threads + Sync>(
    rt: &R,
    alloc: Global,
    text: &str,
    stop: Stop,
) -> Result<(Status, Vec<u8>, u64), Fail> {
    let words = words(alloc, text)?;
    let mut shelf = shelf(alloc, &FILES, Vec::new(alloc))?;
    let mut sink = MemSink::stopping(alloc, vec![in alloc; stop]?, 10_000)?;
    let words = words.as_slice();
    let status = feast_in_memory(rt, alloc, words, &mut shelf, &mut sink, &OpenGate);
    Ok((
        status,
        Vec::from_slice(alloc, sink.written())?,
        sink.calls(),
    ))
}

/// Whether a form puts the report of each leg by itself: of a put that fails in the second one, the sink
/// has the first one whole and ten bytes of the second.
fn puts_leg_by_leg<R: Threads + Sync>(
    rt: &R,
    alloc: Global,
    one: &str,
    three: &str,
) -> Result<bool, Fail> {
    let none = Stop { call: 0, keep: 0 };
    let (_, first, _) = ended(rt, alloc, one, none)?;
    let (done, all, puts) = ended(rt, alloc, three, none)?;
    let (fault, cut, asked) = ended(rt, alloc, three, Stop { call: 2, keep: 10 })?;
    let front = &all.as_slice()[..(first.len() + 10).min(all.len())];
    Ok(
        done == Status::Done
            && puts == 3
            && all.as_slice().starts_with(first.as_slice())
            && fault == Status::SinkFault
            && asked == 2
            && cut.as_slice() == front,
    )
}

/// A call that runs all legs before it puts the first report, or puts them in one piece, fails here.
#[test]
fn a_put_that_fails_in_a_leg_leaves_the_legs_before_it_whole(rt: HostRuntime) -> Result<(), Fail> {
    let alloc = rt.alloc();
    assert!(rt;
        puts_leg_by_leg(&rt, alloc, "run one e", "run three e")?,
        "run"
    );
    assert!(rt;
        puts_leg_by_leg(&rt, alloc, "step one e", "step three e")?,
        "step"
    );
    Ok(())
}
