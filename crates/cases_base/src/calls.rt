//! Worked values, and each public call once.

ghost use Rattle.std.specs.Prelude.{◌≡◌, ◌≤◌, ◌+◌, length};

use feast_base::text::{push, push_hex, push_number};
use feast_base::{
    ClockGate, FileShelf, Gate, LoadFault, MemShelf, MemSink, Name, NoMemory, OpenGate, Rest,
    Shelf, Sink, Source, StdSink, Stop, is_type_name,
};
use std::alloc::Global;
use std::process::Abort;
use std::test::Fail;
use std::time::Duration;
use std::{fs, process};

#[test]
fn a_name_keeps_its_bytes(rt: HostRuntime) -> Result<(), NoMemory> {
    let name = Name::new(rt.alloc(), b"Walker")?;
    assert!(rt; name.bytes() == b"Walker".as_slice());
    Ok(())
}

/// A file.
fn file(alloc: Global, name: &str, bytes: &[u8]) -> Result<Source, NoMemory> {
    Source::new(alloc, name, Vec::from_slice(alloc, bytes)?)
}

#[test]
fn a_source_keeps_its_name_and_its_bytes(rt: HostRuntime) -> Result<(), NoMemory> {
    let source = file(rt.alloc(), "w", &[7, 8])?;
    assert!(rt; source.name() == "w" && source.bytes() == [7, 8].as_slice());
    Ok(())
}

/// Names, and whether they are those of types.
const TYPE_NAMES: [(&str, bool); 15] = [
    ("A", true),
    ("Walker", true),
    ("EventWindow", true),
    ("A_b9", true),
    ("Z", true),
    ("", false),
    ("a", false),
    ("_A", false),
    ("9A", false),
    ("A-", false),
    ("A b", false),
    ("A\n", false),
    ("@", false),
    ("[", false),
    ("A\u{e9}", false),
];

#[test]
fn a_type_name_begins_with_a_capital(rt: HostRuntime) {
    for (name, is_one) in &TYPE_NAMES {
        assert!(rt; is_type_name(name.as_bytes()) == *is_one, "{name}");
    }
}

#[test]
fn a_type_name_has_at_most_255_bytes(rt: HostRuntime) {
    assert!(rt; is_type_name(&[b'A'; 255]));
    assert!(rt; !is_type_name(&[b'A'; 256]));
}

/// The files of a shelf, two of which have one name.
const FILES: [(&str, &[u8]); 2] = [("w", &[1, 2, 3]), ("w", &[4])];

/// A shelf with these files. The second load is listed as one that fails.
fn shelf(alloc: Global) -> Result<MemShelf, NoMemory> {
    let mut files = Vec::new(alloc);
    for (name, bytes) in &FILES {
        files.push(file(alloc, name, bytes)?)?;
    }
    Ok(MemShelf::new(alloc, files, Vec::from_slice(alloc, &[2])?))
}

/// Loads by name and limit, one after another, with their answers.
const LOADS: [(&str, u32, Result<(), LoadFault>); 4] = [
    ("w", 3, Ok(())),
    ("w", 3, Err(LoadFault::Failed)),
    ("e", 3, Err(LoadFault::Failed)),
    ("w", 1, Err(LoadFault::TooLong)),
];

/// That a shelf answers these loads so.
fn assert_loads(rt: &impl Abort, shelf: &mut MemShelf, into: &mut Vec<u8>) {
    for (name, limit, answer) in &LOADS {
        let told = shelf.load(name, *limit as usize, into);
        assert!(rt; told == *answer, "{name} {limit}");
    }
}

#[test]
fn a_shelf_in_memory_loads_the_first_file_of_a_name(rt: HostRuntime) -> Result<(), NoMemory> {
    let mut shelf = shelf(rt.alloc())?;
    let mut into = vec![in rt.alloc(); 9]?;
    assert_loads(&rt, &mut shelf, &mut into);
    assert!(rt; into.as_slice() == [9, 1, 2, 3, 1, 2].as_slice());
    Ok(())
}

/// Whether a sink takes a piece.
fn takes(sink: &mut MemSink, piece: &str) -> bool
    requires { sink.old.faults ≤ 100 }
    ensures { sink.new.faults ≤ sink.old.faults + 1 }
{
    !piece.is_empty() && sink.put(piece.as_bytes()).is_ok()
}

/// Whether a new sink takes or refuses each of these pieces as it is to, one after another.
fn takes_each(sink: &mut MemSink, pieces: &[(&str, bool)]) -> bool
    requires few { length pieces.now ≤ 100 }
    requires new { sink.old.faults ≡ 0 }
{
    for n in 0..pieces.len() {
        let (piece, is_taken) = pieces[n];
        if takes(sink, piece) != is_taken {
            return false;
        }
    }
    true
}

/// That a new sink takes or refuses these pieces, was asked for each once, and has then these bytes.
fn assert_takes(rt: &impl Abort, sink: &mut MemSink, pieces: &[(&str, bool)], written: &str)
    requires few { length pieces.now ≤ 100 }
    requires new { sink.old.faults ≡ 0 }
{
    assert!(rt; takes_each(sink, pieces));
    assert!(rt; sink.written() == written.as_bytes() && sink.calls() == pieces.len() as u64);
}

/// Pieces, of which the second put is listed as one that fails, and three bytes are left for the third.
const LISTED: [(&str, bool); 4] = [("abc", true), ("x", false), ("wxyz", false), ("def", true)];

#[test]
fn a_sink_in_memory_takes_what_it_has_room_for(rt: HostRuntime) -> Result<(), NoMemory> {
    let mut sink = MemSink::new(rt.alloc(), Vec::from_slice(rt.alloc(), &[2])?, 6)?;
    assert_takes(&rt, &mut sink, &LISTED, "abcdef");
    Ok(())
}

/// Stops, two of which name one put.
const STOPS: [Stop; 6] = [
    Stop { call: 2, keep: 2 },
    Stop { call: 3, keep: 9 },
    Stop { call: 4, keep: 0 },
    Stop { call: 5, keep: 1 },
    Stop { call: 6, keep: 1 },
    Stop { call: 6, keep: 2 },
];

/// Pieces, of which a sink with these stops and room for 12 bytes keeps two of three bytes; all, being
/// fewer than nine; none; none, being more than the room; and one, by the first of two stops.
const STOPPED: [(&str, bool); 7] = [
    ("abc", true),
    ("def", false),
    ("gh", false),
    ("i", false),
    ("jklmno", false),
    ("jkl", false),
    ("kl", true),
];

#[test]
fn a_stop_keeps_the_first_bytes_of_its_piece(rt: HostRuntime) -> Result<(), NoMemory> {
    let stops = Vec::from_slice(rt.alloc(), &STOPS)?;
    let mut sink = MemSink::stopping(rt.alloc(), stops, 12)?;
    assert_takes(&rt, &mut sink, &STOPPED, "abcdeghjkl");
    Ok(())
}

/// Appends bytes, a number and digits.
fn push_each(out: &mut Vec<u8>) -> Result<(), NoMemory> {
    push(out, b"a ")?;
    push_number(out, 18446744073709551615)?;
    push(out, b" ")?;
    push_hex(out, 0x1_0000_0000_00ab_cdef, 8)
}

#[test]
fn texts_are_made_of_bytes_numbers_and_digits(rt: HostRuntime) -> Result<(), NoMemory> {
    let mut out = Vec::new(rt.alloc());
    push_each(&mut out)?;
    assert!(rt; out.as_slice() == b"a 18446744073709551615 00abcdef".as_slice());
    Ok(())
}

/// How long a rest took, by the clock of its place.
fn rested<R: Rest>(place: &R) -> Duration {
    let begun = place.time();
    place.rest(Duration::from_millis(2));
    place.time().saturating_sub(begun)
}

/// Two gates let workers pass. One has a clock, by which a rest takes its time; the other has none.
#[test]
fn open_gates_let_workers_pass(rt: HostRuntime) {
    let gate = ClockGate { clock: &rt };
    OpenGate.reach(3, 0);
    gate.reach(3, 0);
    assert!(rt; rested(&OpenGate) == Duration::ZERO);
    assert!(rt; rested(&gate) >= Duration::from_millis(2));
}

/// The time of a gate with the system's clock never falls, whether anybody rests meanwhile or not, and over some
/// rests it rises.
#[test]
fn the_time_of_a_gate_never_falls(rt: HostRuntime) {
    let gate = ClockGate { clock: &rt };
    let begun = gate.time();
    let mut last = begun;
    for round in 0..100u64 {
        if round % 4 == 0 {
            gate.rest(Duration::from_micros(round));
        }
        let now = gate.time();
        assert!(rt; last <= now, "{round}");
        last = now;
    }
    assert!(rt; begun < last);
}

/// What a shelf answers for a file of six bytes, which it may load whole, for the same with a limit of
/// two, and for the same once it is gone.
fn told(
    rt: &HostRuntime,
    path: &str,
    into: &mut Vec<u8>,
) -> Result<[Result<(), LoadFault>; 3], Fail> {
    let mut shelf = FileShelf::new(rt, rt.alloc());
    fs::write(rt, path, "feast\n")?;
    let whole = shelf.load(path, 6, into);
    let longer = shelf.load(path, 2, into);
    fs::remove_file(rt, path)?;
    Ok([whole, longer, shelf.load(path, 6, into)])
}

/// A path that no other process has.
fn path(rt: &HostRuntime) -> Result<String, Fail> {
    Ok(format!(in rt.alloc(); "/tmp/feast_base_{}", process::id(rt.process()))?)
}

#[test]
fn files_of_the_system_are_loaded(rt: HostRuntime) -> Result<(), Fail> {
    let path = path(&rt)?;
    let mut into = vec![in rt.alloc(); 9]?;
    let told = told(&rt, path.as_str(), &mut into)?;
    assert!(rt; told == [Ok(()), Err(LoadFault::TooLong), Err(LoadFault::Failed)]);
    assert!(rt; into.as_slice() == b"\tfeast\nfea".as_slice());
    Ok(())
}

#[test]
fn standard_output_takes_bytes(rt: HostRuntime) {
    let mut sink = StdSink::new(&rt);
    assert!(rt; sink.put(b"feast\n").is_ok());
}
