//! Each load and each put of each form fails in turn, also in the middle of a piece.

use crate::calls::{shelf, words};
use feast_base::{MemSink, OpenGate, Stop};
use feast_run::{Status, feast_in_memory};
use std::alloc::Global;
use std::process::Abort;
use std::test::Fail;
use std::thread::Threads;

/// The files that are there. The report of `w` has more than 4,096 bytes, and less than 8,192.
const FILES: [(&str, &str); 5] = [
    (
        "e",
        "element Walker { EventWindow ew; Void behave() { ew.swap(0, 4); } }",
    ),
    (
        "c",
        "FEASTC\x01\0\0\x01\0\0\0\x06Walker\0\0\0\x01\0\0\0\x06behave\0\0\0\0\0\0\0\0\0\0\0\x04\0\0\0\0\0\0\0\0\0\0\0\0\0\0\0\0\0\0\0\x04\x0c0",
    ),
    ("w", "feast 1\ntiles 1 1\nsize 8 8\nseed 7\nattempts 200\n"),
    (
        "walk",
        "feast 1\ntiles 1 1\nsize 8 8\ntry 0 3 4 0000000000000000\natom 3 4 Walker\n",
    ),
    (
        "j",
        "feast 1\natoms 1\n4 4 Walker 000000000000000000\njournal 1\n1 0 0 3 4 0000000000000000\nabandoned 0\n",
    ),
];

/// A call of each form but `gen` that ends well, with the files that it loads, in order.
const CALLS: [(&str, &[&str]); 10] = [
    ("check e", &["e"]),
    ("code e", &["e"]),
    ("pack e", &["e"]),
    ("run w e", &["w", "e"]),
    ("step w e", &["w", "e"]),
    ("runpack w c", &["w", "c"]),
    ("steppack w c", &["w", "c"]),
    ("replay walk j e", &["walk", "e", "j"]),
    ("audit walk j e", &["walk", "e", "j"]),
    ("rewind walk j 0 e", &["walk", "e", "j"]),
];

/// Puts that fail, each with how many first bytes of its piece are still appended.
const STOPS: [(u64, u32); 9] = [
    (1, 0),
    (1, 1),
    (1, 10),
    (1, 4095),
    (1, 5000),
    (2, 0),
    (2, 10),
    (2, 1000),
    (2, 5000),
];

/// How a call ends if some loads and a put fail: its status, the bytes that the sink has, and how many
/// puts it was asked for.
fn ended<R: Threads + Sync>(
    rt: &R,
    alloc: Global,
    text: &str,
    load: u64,
    (call, keep): (u64, u32),
) -> Result<(Status, Vec<u8>, u64), Fail> {
    let words = words(alloc, text)?;
    let mut shelf = shelf(alloc, &FILES, vec![in alloc; load]?)?;
    let mut sink = MemSink::stopping(alloc, vec![in alloc; Stop { call, keep }]?, 10_000)?;
    let words = words.as_slice();
    let status = feast_in_memory(rt, alloc, words, &mut shelf, &mut sink, &OpenGate);
    Ok((
        status,
        Vec::from_slice(alloc, sink.written())?,
        sink.calls(),
    ))
}

/// Whether a call ends so if some loads and a put fail: with this status, after it wrote these bytes.
fn ends<R: Threads + Sync>(
    rt: &R,
    alloc: Global,
    text: &str,
    (load, put): (u64, (u64, u32)),
    (status, written): (Status, &[u8]),
) -> Result<bool, Fail> {
    let (told, bytes, _) = ended(rt, alloc, text, load, put)?;
    Ok(told == status && bytes.as_slice() == written)
}

/// The line that says that a file couldn't be loaded.
fn unreadable(alloc: Global, name: &str) -> Result<Vec<u8>, Fail> {
    let mut line = Vec::from_slice(alloc, name.as_bytes())?;
    line.extend_from_slice(b": E01 unreadable\n")?;
    Ok(line)
}

/// A load of a call fails, which was to give the file of this name, and then the put that says so
/// fails after seven bytes.
fn load_fails<R: Threads + Sync + Abort>(
    rt: &R,
    alloc: Global,
    call: &str,
    load: u64,
    name: &str,
) -> Result<(), Fail> {
    let line = unreadable(alloc, name)?;
    let line = line.as_slice();
    let whole = (Status::Unreadable, line);
    assert!(rt; ends(rt, alloc, call, (load, (0, 0)), whole)?, "{call}");
    let front = (Status::SinkFault, &line[..line.len().min(7)]);
    assert!(rt; ends(rt, alloc, call, (load, (1, 7)), front)?, "{call}");
    Ok(())
}

/// Each load of a call fails in turn, and no other is asked for.
fn loads_fail<R: Threads + Sync + Abort>(
    rt: &R,
    alloc: Global,
    call: &str,
    names: &[&str],
) -> Result<(), Fail> {
    for index in 0..names.len() {
        load_fails(rt, alloc, call, index as u64 + 1, names[index])?;
    }
    let (status, _, _) = ended(rt, alloc, call, names.len() as u64 + 1, (0, 0))?;
    assert!(rt; status == Status::Done, "{call}");
    Ok(())
}

/// A form that loads a file twice, in another order, or goes on after a load that failed, fails here.
#[test]
fn each_load_fails_in_turn(rt: HostRuntime) -> Result<(), Fail> {
    for (call, names) in &CALLS {
        loads_fail(&rt, rt.alloc(), call, names)?;
    }
    Ok(())
}

/// A put of a call fails, if it comes to it. The call puts these bytes if none fails.
fn put_fails<R: Threads + Sync + Abort>(
    rt: &R,
    alloc: Global,
    call: &str,
    whole: &[u8],
    (put, keep): (u64, u32),
) -> Result<(), Fail> {
    let before = if put == 1 { 0usize } else { 4096 };
    let len = whole.len().min(before + (keep as usize).min(4096));
    let wanted = if before < whole.len() {
        Status::SinkFault
    } else {
        Status::Done
    };
    let told = ends(rt, alloc, call, (0, (put, keep)), (wanted, &whole[..len]))?;
    assert!(rt; told, "{call}: {put} {keep}");
    Ok(())
}

/// Each of these puts of a call fails in turn, if it comes to it.
fn puts_fail<R: Threads + Sync + Abort>(
    rt: &R,
    alloc: Global,
    call: &str,
    stops: &[(u64, u32)],
) -> Result<(), Fail> {
    let (_, whole, puts) = ended(rt, alloc, call, 0, (0, 0))?;
    assert!(rt; puts == if whole.len() > 4096 { 2 } else { 1 }, "{call}");
    for stop in stops {
        put_fails(rt, alloc, call, whole.as_slice(), *stop)?;
    }
    Ok(())
}

/// A form that puts more after a put that failed, or says that all is done, fails here.
#[test]
fn each_put_fails_in_turn(rt: HostRuntime) -> Result<(), Fail> {
    for (call, _) in &CALLS {
        puts_fail(&rt, rt.alloc(), call, &STOPS)?;
    }
    Ok(())
}

#[test]
fn a_generated_run_loads_nothing_and_its_put_fails(rt: HostRuntime) -> Result<(), Fail> {
    let alloc = rt.alloc();
    let (status, _, _) = ended(&rt, alloc, "gen 5", 1, (0, 0))?;
    assert!(rt; status == Status::Done);
    puts_fail(&rt, alloc, "gen 5", &[(1, 0), (1, 10)])
}
