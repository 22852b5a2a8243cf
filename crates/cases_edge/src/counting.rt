//! An edge of one shared site whose ends count their holds in its clock, in two threads and in turn.
ghost use Rattle.std.specs.Prelude.{◌≡◌, ◌≤◌, ◌<◌, ◌+◌};
ghost use Rattle.edge_lock.specs.EndLists.{IsFree, IsNew};
ghost use Rattle.cases_edge.specs.Untouched.{IsUntouchedAt};

use edge_lock::{Board, Edge, SharedEnd, Take};
use std::alloc::Global;
use std::test::Fail;
use std::thread::{Threads, join_mut};

/// How often each end tries the edge in a round.
const TRIES: u64 = 1000;

/// How many rounds two threads have to meet in.
const ROUNDS: u32 = 10_000;

/// An end is refused fewer times in a row than this.
const MOST_REFUSALS: u16 = 2000;

/// How many tries follow the refusals.
const FURTHER: u64 = 20;

/// Tries an edge once, and adds 1 to register 0 if it gets it.
fn bump<D: Board>(board: &mut D, edge: u32, attempt: u64) -> bool
    requires edge { 0 < (D.end board.old).registers edge }
    requires free { IsFree ((D.end board.old).lists edge) }
    requires attempt { attempt < 1000000 }
    requires is_new { IsNew attempt ((D.end board.old).lists edge) }
    ensures free { IsFree ((D.end board.new).lists edge) }
    ensures attempt { IsNew (attempt + 1) ((D.end board.new).lists edge) }
    ensures edge { (D.end board.new).registers ≡ (D.end board.old).registers }
    ensures moved { D.moved board.old board.new }
{
    match board.try_take(edge, attempt) {
        Take::Got => {
            let n = board.read(edge, 0);
            board.write(edge, 0, n.wrapping_add(1));
            board.give(edge);
            true
        }
        Take::Busy { .. } => false,
    }
}

/// Tries an edge with each attempt from `first` to before `end`. The answer is the number of holds.
fn count_up<D: Board>(board: &mut D, edge: u32, first: u64, end: u64) -> u64
    requires edge { 0 < (D.end board.old).registers edge }
    requires free { IsFree ((D.end board.old).lists edge) }
    requires attempt { IsNew first ((D.end board.old).lists edge) }
    requires order { first ≤ end }
    requires bound { end ≤ 1000000 }
    ensures free { IsFree ((D.end board.new).lists edge) }
    ensures attempt { IsNew end ((D.end board.new).lists edge) }
    ensures edge { (D.end board.new).registers ≡ (D.end board.old).registers }
    ensures moved { D.moved board.old board.new }
    ensures few { result + first ≤ end }
{
    let mut got = 0;
    for attempt in first..end {
        if bump(board, edge, attempt) {
            got += 1;
        }
    }
    got
}

/// Both ends count, each in a thread of its own. Answers how many holds each got.
fn count_both<R: Threads, A: Board + Send, B: Board + Send>(
    rt: &R,
    low: &mut A,
    high: &mut B,
) -> (u64, u64)
    requires low { IsUntouchedAt 0 (A.end low.old) }
    requires high { IsUntouchedAt 0 (B.end high.old) }
    ensures low { A.moved low.old low.new × IsFree ((A.end low.new).lists 0) }
    ensures high { B.moved high.old high.new × IsFree ((B.end high.new).lists 0) }
{
    join_mut(
        rt,
        &mut || -> u64
            requires { IsUntouchedAt 0 (A.end low.now) }
            ensures { A.moved low.entry.now low.exit.now × IsFree ((A.end low.exit.now).lists 0) }
        { count_up(low, 0, 0, TRIES) },
        &mut || -> u64
            requires { IsUntouchedAt 0 (B.end high.now) }
            ensures { B.moved high.entry.now high.exit.now × IsFree ((B.end high.exit.now).lists 0) }
        { count_up(high, 0, 0, TRIES) },
    )
}

/// How many holds each of two threads got at an edge, and what its clock is then.
fn counted<R: Threads>(rt: &R, alloc: Global) -> Result<((u64, u64), u64), Fail> {
    let (edge, low, high) = Edge::new(alloc, 0, 1)?;
    let mut edges = Vec::from_array(alloc, [edge])?;
    let mut lower = SharedEnd::new(edges.as_slice(), Vec::from_array(alloc, [low])?, 0);
    let mut higher = SharedEnd::new(edges.as_slice(), Vec::from_array(alloc, [high])?, 1);
    let holds = count_both(rt, &mut lower, &mut higher);
    let mut lows = lower.into_passes();
    let mut highs = higher.into_passes();
    let Some(edge) = edges.pop() else {
        unreachable!()
    };
    let Some(low) = lows.pop() else {
        unreachable!()
    };
    let Some(high) = highs.pop() else {
        unreachable!()
    };
    let mut closed = edge.close(low, high);
    Ok((holds, closed.word(0)))
}

/// Two threads try an edge a thousand times each, and that again until each end was refused once,
/// so that they have really met: no hold is lost. A lock that looks at its word and then writes it
/// lets both ends in at once, and loses some.
#[test]
fn two_threads_that_meet_count_each_hold(rt: HostRuntime) -> Result<(), Fail> {
    let mut met = (false, false);
    for _round in 0..ROUNDS {
        let ((low, high), word) = counted(&rt, rt.alloc())?;
        assert!(rt; low.wrapping_add(high) == word);
        met = (met.0 || low < TRIES, met.1 || high < TRIES);
        if met.0 && met.1 {
            return Ok(());
        }
    }
    Err(Fail::from("no end was refused"))
}

/// How many holds the higher end gets of this many tries while the lower end has the edge, and then of
/// the further tries, once it was given back.
fn refused_and_then_free<A: Board, B: Board>(
    low: &mut A,
    high: &mut B,
    refusals: u16,
) -> Option<(u64, u64)>
    requires low { IsUntouchedAt 0 (A.end low.old) }
    requires high { IsUntouchedAt 0 (B.end high.old) }
{
    let Take::Got = low.try_take(0, 5) else {
        return None;
    };
    let refusals = u64::from(refusals);
    let refused = count_up(high, 0, 0, refusals);
    low.give(0);
    let further = count_up(high, 0, refusals, refusals + FURTHER);
    Some((refused, further))
}

/// The same for the two ends of a shared edge.
fn tried(alloc: Global, refusals: u16) -> Result<Option<(u64, u64)>, Fail> {
    let (edge, low, high) = Edge::new(alloc, 0, 1)?;
    let edges = Vec::from_array(alloc, [edge])?;
    let mut lower = SharedEnd::new(edges.as_slice(), Vec::from_array(alloc, [low])?, 0);
    let mut higher = SharedEnd::new(edges.as_slice(), Vec::from_array(alloc, [high])?, 1);
    Ok(refused_and_then_free(&mut lower, &mut higher, refusals))
}

/// An end that was refused, once or many times in a row, gets an edge that was given back at each further
/// try. A try that answers Busy by the holder which it found before, without a look at the lock, meets
/// each contract, since that hold still lies between the holds of the refused end; it fails here, also
/// if it does so only at every 256th try.
#[test]
fn a_refusal_is_no_older_than_its_try(rt: HostRuntime) -> Result<(), Fail> {
    for refusals in 1..MOST_REFUSALS {
        let holds = tried(rt.alloc(), refusals)?;
        assert!(rt; holds == Some((0, FURTHER)), "{refusals} refusals");
    }
    Ok(())
}
