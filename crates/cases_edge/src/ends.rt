//! An edge of one shared site, so of five registers, whose ends take turns on one thread.
ghost use Rattle.std.specs.Prelude.{◌≡◌, ◌<◌, [], IfOk, IfSome};
ghost use Rattle.edge_lock.specs.declared.board.Take.TheVariants.{Busy};
ghost use Rattle.bit_field.specs.Atom.{LeavesGap};
ghost use Rattle.edge_lock.specs.History.{site_count};
ghost use Rattle.edge_lock.specs.EndLists.{IsFree, IsNew, end_lists};
ghost use Rattle.edge_lock.specs.EndValues.{HasTried};
ghost use Rattle.cases_edge.specs.Untouched.{IsUntouchedAt};
ghost use Rattle.edge_lock.specs.PlainEdges.{IsAnswer};
ghost use Rattle.edge_lock.specs.PlainBoard.{registers_on, lists_on, end_on, edge_at, IsKeptEdge};

use edge_lock::{Board, Edge, EdgeSizes, PlainBoard, SharedEnd, Take};
use feast_base::NoMemory;
use std::alloc::Global;
use std::test::Fail;

/// Both ends of a shared edge take turns: what the higher end reads, if each try is answered as it
/// is on one board.
fn take_turns<A: Board, B: Board>(low: &mut A, high: &mut B) -> Option<u64>
    requires low { IsUntouchedAt 0 (A.end low.old) }
    requires high { IsUntouchedAt 0 (B.end high.old) }
    ensures low { A.moved low.old low.new × IfSome result (λ _. IsFree ((A.end low.new).lists 0)) }
    ensures high { B.moved high.old high.new × IfSome result (λ _. IsFree ((B.end high.new).lists 0)) }
{
    let Take::Got = low.try_take(0, 5) else {
        return None;
    };
    let Take::Busy { holder_attempt: 5 } = high.try_take(0, 3) else {
        return None;
    };
    low.write(0, 0, 9);
    low.give(0);
    let Take::Got = high.try_take(0, 4) else {
        return None;
    };
    let read = high.read(0, 0);
    high.give_back(0);
    Some(read)
}

/// What the higher end of a shared edge reads, and what register 0 has when the edge is closed.
fn shared_turns(alloc: Global) -> Result<Option<(u64, u64)>, Fail> {
    let (edge, low, high) = Edge::new(alloc, 0, 1)?;
    let mut edges = Vec::from_array(alloc, [edge])?;
    let mut lower = SharedEnd::new(edges.as_slice(), Vec::from_array(alloc, [low])?, 0);
    let mut higher = SharedEnd::new(edges.as_slice(), Vec::from_array(alloc, [high])?, 1);
    let Some(read) = take_turns(&mut lower, &mut higher) else {
        return Ok(None);
    };
    let mut lows = lower.into_passes();
    let mut highs = higher.into_passes();
    let Some(edge) = edges.pop() else {
        unreachable!()
    };
    let Some(low) = lows.pop() else {
        unreachable!()
    };
    let Some(high) = highs.pop() else {
        unreachable!()
    };
    let mut closed = edge.close(low, high);
    Ok(Some((read, closed.word(0))))
}

#[test]
fn shared_ends_take_turns(rt: HostRuntime) -> Result<(), Fail> {
    assert!(rt; shared_turns(rt.alloc())? == Some((9, 9)));
    Ok(())
}

#[test]
fn passes_know_their_edge(rt: HostRuntime) -> Result<(), Fail> {
    let (_edge, low, high) = Edge::new(rt.alloc(), 7, 1)?;
    assert!(rt; low.edge() == 7);
    assert!(rt; high.edge() == 7);
    Ok(())
}

/// Two tiles and the one edge between them.
struct OneEdge;

impl EdgeSizes for OneEdge {
    ghost use Rattle.std.specs.Prelude.{[], ◌∷◌};

    ghost sizes = { λ _. record { lower = 0; higher = 1; sites = 1 } ∷ [] };

    fn edges(&self) -> u32 {
        1
    }

    fn ends(&self, edge: u32) -> (u32, u32) {
        (edge, edge + 1)
    }

    fn sites(&self, edge: u32) -> u32 {
        edge + 1
    }

    fn registers(&self, edge: u32) -> u32 {
        edge + 5
    }
}

/// Both ends of an edge take turns on one board: what the higher end is answered, what it reads, and what is left.
fn alternate(alloc: Global) -> Result<(Take, u64, u64), NoMemory>
    ensures { IfOk result (λ r. (r.0 ≡ Busy 5) × (r.1 ≡ 9) × (r.2 ≡ 9)) }
{
    let mut board = PlainBoard::new(alloc, &OneEdge)?;
    board.try_take(0, 5);
    board.turn_to(1);
    let refused = board.try_take(0, 3);
    board.turn_to(0);
    board.write(0, 0, 9);
    board.give(0);
    board.turn_to(1);
    board.try_take(0, 4);
    let read = board.read(0, 0);
    board.give_back(0);
    Ok((refused, read, board.word(0, 0)))
}

/// One try, by code that knows the board as a `Board` alone.
fn try_once<D: Board>(board: &mut D, edge: u32, attempt: u64) -> Take
    requires edge { 0 < (D.end board.old).registers edge }
    requires free { IsFree ((D.end board.old).lists edge) }
    requires attempt { attempt < 1000000 }
    requires is_new { IsNew attempt ((D.end board.old).lists edge) }
    ensures change { HasTried edge attempt result (D.end board.old) (D.end board.new) }
    ensures moved { D.moved board.old board.new }
{
    board.try_take(edge, attempt)
}

/// On a plain board such a try is known to be Busy when the other end had the edge, and Got when
/// nobody had it.
fn try_on_board(board: &mut PlainBoard, edge: u32, attempt: u64) -> Take
    requires edge { 0 < registers_on board.old edge }
    requires free { IsFree (lists_on board.old edge) }
    requires attempt { attempt < 1000000 }
    requires is_new { IsNew attempt (lists_on board.old edge) }
    requires kept { IsKeptEdge (edge_at board.old edge) }
    ensures answer { IsAnswer (end_on board.old edge) (edge_at board.old edge) result }
{
    try_once(board, edge, attempt)
}

#[test]
fn one_try_of_generic_code(rt: HostRuntime) -> Result<(), Fail> {
    let mut board = PlainBoard::new(rt.alloc(), &OneEdge)?;
    assert!(rt; matches!(try_on_board(&mut board, 0, 5), Take::Got));
    Ok(())
}

/// How many sites edges with this many registers share.
fn tell_site_counts()
    ensures smallest { (site_count 1 ≡ 0) × (site_count 5 ≡ 1) }
    ensures words { (site_count 131 ≡ 64) × (site_count 135 ≡ 65) × (site_count 197 ≡ 96) }
    ensures largest { site_count 1107 ≡ 544 }
{}

/// On an edge of one shared site the clock, the low word and the news words take any value, and what the register of the
/// high word gives leaves the gap.
fn fill<D: Board>(board: &mut D) -> Option<(u64, u64)>
    requires edge { (D.end board.old).registers 0 ≡ 5 }
    requires fresh { (D.end board.old).lists 0 ≡ end_lists [] [] }
    ensures gap { IfSome result (λ r. LeavesGap r.1) }
    ensures free { IsFree ((D.end board.new).lists 0) }
{
    let Take::Got = board.try_take(0, 0) else {
        return None;
    };
    board.write(0, 0, u64::MAX);
    board.write(0, 1, u64::MAX);
    board.write(0, 3, u64::MAX);
    board.write(0, 4, u64::MAX);
    let (news, high) = (board.read(0, 4), board.read(0, 2));
    board.give(0);
    Some((news, high))
}

#[test]
fn the_high_word_alone_has_a_gap(rt: HostRuntime) -> Result<(), Fail> {
    tell_site_counts();
    let mut board = PlainBoard::new(rt.alloc(), &OneEdge)?;
    assert!(rt; fill(&mut board) == Some((u64::MAX, 0)));
    Ok(())
}

#[test]
fn one_thread_alternates(rt: HostRuntime) -> Result<(), Fail> {
    let (refused, read, word) = alternate(rt.alloc())?;
    assert!(rt; matches!(refused, Take::Busy { holder_attempt: 5 }));
    assert!(rt; read == 9);
    assert!(rt; word == 9);
    Ok(())
}
