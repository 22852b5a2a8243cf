//! What a tile keeps, and its steps.
ghost use Rattle.std.specs.Prelude.{◌≡◌, ◌<◌, ◌≤◌, ◌+◌, ◌-◌, ◌*◌, ℕ, length, nat_lt, IfOk};
ghost use Rattle.tile_map.specs.Plane.{site, tiles_of};
ghost use Rattle.tile_map.specs.Edges.{pairs_of, other_end};
ghost use Rattle.plane_grid.specs.PlaneGrids.{IsGridOf};
ghost use Rattle.border_cache.specs.Copies.{IsEndOf, IsCentre};
ghost use Rattle.tile_core.specs.declared.phase.Phase.TheVariants.{Draw, Lock, Refresh, Behave, Write, Give, Back};
ghost use Rattle.edge_lock.specs.EndLists.{EndLists};
ghost use Rattle.edge_lock.specs.EndValues.{SameEnd};
ghost use Rattle.tile_core.specs.Underway.{IsSome, CanAttempt, IsFreshTile};
ghost use Rattle.tile_core.specs.Steps.{rules_of, StepsIn, over, Begins, Draws, Tries, Refreshes, Behaves, Writes, Frees, tile_with_edge, tile_after_refusal, tile_after_event};
ghost use Rattle.tile_core.specs.Values.{atoms_of};
ghost use Rattle.tile_core.specs.Kept.{value_of, at, entries_due, IsIn, HasRoom, Reserves, LeavesMarks};
ghost use Rattle.feast_base.specs.declared.limits.TheConstants.{MOST_ATTEMPTS};
ghost use Rattle.tile_map.specs.declared.limits.TheConstants.{MOST_NEEDS};

use crate::clocks::{read_clocks, write_clocks};
use crate::phase::Phase;
use bit_field::Atom;
use border_cache::Cache;
use cell_grid::{Behave, Grid, Record};
use draw_stream::{Attempt, Attempts};
use edge_lock::{Board, Take};
use event_journal::Abandoned;
use feast_base::{LAST_STAMP, NoMemory};
use std::alloc::Global;
use tile_map::{Map, Needs};
use window_sites::Window;

/// What a tile keeps.
#[derive(Drop)]
pub(crate) struct State {
    pub number: u32,
    pub cache: Cache,
    pub attempts: Attempts,
    pub taken: u64,
    pub stamp: u32,
    pub x: u32,
    pub y: u32,
    pub seed: u64,
    pub needs: Needs,
    pub next: usize,
    pub count: usize,
    pub event_stamp: u32,
    /// Whether the event finds an empty centre: it then leaves the window as it is, and none is made.
    pub idle: bool,
    pub window: Window,
    pub records: Vec<Record>,
    pub abandoned: Vec<Abandoned>,
    pub phase: Phase,
}

/// The tile at the other end of an edge.
fn other_end(map: &Map, tile: u32, edge: u32) -> u32
    requires { edge < length (pairs_of map.now) }
    ensures { result ≡ other_end map.now tile edge }
{
    let (lower, higher) = map.ends(edge);
    if lower == tile { higher } else { lower }
}

/// The phase once an attempt is over, by the attempts that are left.
fn over(attempts: &Attempts) -> Phase
    ensures phase { result ≡ over attempts.now }
    ensures owed { entries_due result ≡ 0 }
{
    if attempts.left() == 0 {
        Phase::Finished
    } else {
        Phase::Draw
    }
}

impl State {
    /// What a tile keeps at the start.
    pub(crate) fn new(
        alloc: Global,
        map: &Map,
        tile: u32,
        start: &Grid,
        attempts: Attempts,
    ) -> Result<State, NoMemory>
        requires start { IsGridOf map.now start.now }
        requires attempts { CanAttempt map.now tile attempts }
        ensures fresh { IfOk result (λ s. IsFreshTile map.now tile (atoms_of start.now) attempts (value_of s)) }
        ensures room { IfOk result (λ s. HasRoom s) }
        ensures reserved { IfOk result (λ s. Reserves s (length attempts)) }
    {
        map.laws();
        let cache = Cache::new(alloc, map, tile, start)?;
        let entries = attempts.left() as usize;
        let records = Vec::with_capacity(alloc, entries)?;
        let abandoned = Vec::with_capacity(alloc, entries)?;
        let (x, y) = map.site_of(tile, 0);
        let needs = map.needs(tile, x, y);
        let phase = over(&attempts);
        Ok(State {
            number: tile,
            cache,
            attempts,
            taken: 0,
            stamp: 0,
            x,
            y,
            seed: 0,
            needs,
            next: 0,
            count: 0,
            event_stamp: 0,
            idle: false,
            window: Window::empty(),
            records,
            abandoned,
            phase,
        })
    }

    /// One step.
    pub(crate) fn step<D: Board, B: Behave>(&mut self, map: &Map, board: &mut D, behave: &mut B)
        requires underway { IsSome map.now (B.after behave.old) (value_of self.old) (D.end board.old).lists }
        requires board { IsEndOf map.now self.old.number (D.end board.old) }
        requires room { HasRoom self.old }
        ensures step { StepsIn (rules_of map.now (B.after behave.old) (D.end board.old).end_of) (at self.old (D.end board.old)) (at self.new (D.end board.new)) self.old.phase }
        ensures room { HasRoom self.new }
        ensures meaning { B.after behave.new ≡ B.after behave.old }
        ensures same { SameEnd (D.end board.old) (D.end board.new) }
        ensures moved { D.moved board.old board.new }
    {
        match self.phase {
            Phase::Draw => self.draw(map),
            Phase::Lock => self.lock(map, board),
            Phase::Refresh => self.refresh(map, board),
            Phase::Behave => self.behave(map, behave),
            Phase::Write => self.write(map, board),
            Phase::Give => self.give(map, board),
            Phase::Back => self.back(map, board),
            Phase::Finished | Phase::Worn => (),
        }
    }

    /// Frees one edge of an event.
    pub(crate) fn give<D: Board>(&mut self, map: &Map, board: &mut D)
        requires phase { IsIn map.now (value_of self.old) (D.end board.old).lists Give }
        requires board { IsEndOf map.now self.old.number (D.end board.old) }
        requires room { HasRoom self.old }
        ensures frees { Frees (length self.old.needs) (at self.old (D.end board.old)) (at self.new (D.end board.new)) }
        ensures room { HasRoom self.new }
        ensures same { SameEnd (D.end board.old) (D.end board.new) }
        ensures moved { D.moved board.old board.new }
    {
        board.give(self.needs.edge(self.next));
        if self.next + 1 < self.needs.len() {
            self.next += 1;
        } else {
            self.phase = over(&self.attempts);
        }
    }

    /// Frees one edge of an attempt that was given up.
    fn back<D: Board>(&mut self, map: &Map, board: &mut D)
        requires phase { IsIn map.now (value_of self.old) (D.end board.old).lists Back }
        requires board { IsEndOf map.now self.old.number (D.end board.old) }
        requires room { HasRoom self.old }
        ensures frees { Frees self.old.count (at self.old (D.end board.old)) (at self.new (D.end board.new)) }
        ensures room { HasRoom self.new }
        ensures same { SameEnd (D.end board.old) (D.end board.new) }
        ensures moved { D.moved board.old board.new }
    {
        board.give_back(self.needs.edge(self.next));
        if self.next + 1 < self.count {
            self.next += 1;
        } else {
            self.phase = over(&self.attempts);
        }
    }

    /// Tries one needed edge.
    pub(crate) fn lock<D: Board>(&mut self, map: &Map, board: &mut D)
        requires phase { IsIn map.now (value_of self.old) (D.end board.old).lists Lock }
        requires board { IsEndOf map.now self.old.number (D.end board.old) }
        requires room { HasRoom self.old }
        ensures tries { Tries map.now (D.end board.old).end_of (at self.old (D.end board.old)) (at self.new (D.end board.new)) }
        ensures room { HasRoom self.new }
        ensures same { SameEnd (D.end board.old) (D.end board.new) }
        ensures moved { D.moved board.old board.new }
    {
        let edge = self.needs.edge(self.next);
        match board.try_take(edge, self.taken - 1) {
            Take::Got => self.pass_edge(),
            Take::Busy { holder_attempt } => self.note_refusal(map, edge, holder_attempt),
        }
    }

    /// Goes on after an edge was got: to the next one, or to the refresh after the last.
    fn pass_edge(&mut self)
        requires next { self.old.next < length self.old.needs }
        requires few { length self.old.needs ≤ MOST_NEEDS }
        requires phase { self.old.phase ≡ Lock }
        requires room { HasRoom self.old }
        ensures got { value_of self.new ≡ tile_with_edge (nat_lt (self.old.next + 1) (length self.old.needs)) (value_of self.old) }
        ensures room { HasRoom self.new }
    {
        if self.next + 1 < self.needs.len() {
            self.next += 1;
        } else {
            self.phase = Phase::Refresh;
        }
    }

    /// Notes that the attempt was refused at an edge.
    fn note_refusal(&mut self, map: &Map, edge: u32, holder_attempt: u64)
        requires edge { edge < length (pairs_of map.now) }
        requires taken { 1 ≤ self.old.taken }
        requires phase { self.old.phase ≡ Lock }
        requires room { HasRoom self.old }
        ensures refused { value_of self.new ≡ tile_after_refusal map.now (value_of self.old) edge holder_attempt }
        ensures room { HasRoom self.new }
    {
        let entry = Abandoned {
            tile: self.number,
            attempt: self.taken - 1,
            x: self.x,
            y: self.y,
            edge,
            holder: other_end(map, self.number, edge),
            holder_attempt,
        };
        self.abandoned.push_reserved(entry);
        self.count = self.next;
        self.next = 0;
        self.phase = if self.count == 0 {
            over(&self.attempts)
        } else {
            Phase::Back
        };
    }

    /// Takes the next attempt.
    pub(crate) fn draw(&mut self, map: &Map)
        requires phase { (lists : ℕ → EndLists) × IsIn map.now (value_of self.old) lists Draw }
        requires tile { self.old.number < tiles_of map.now }
        requires room { HasRoom self.old }
        ensures draws { Draws map.now (value_of self.old) (value_of self.new) }
        ensures room { HasRoom self.new }
    {
        if let Some(attempt) = self.attempts.next() {
            self.begin(map, attempt);
        }
    }

    /// Has an attempt in hand.
    fn begin(&mut self, map: &Map, attempt: Attempt)
        requires tile { self.old.number < tiles_of map.now }
        requires centre { attempt.centre < map.now.w * map.now.h }
        requires phase { self.old.phase ≡ Draw }
        requires taken { self.old.taken < MOST_ATTEMPTS }
        ensures begins { Begins map.now attempt (value_of self.old) (value_of self.new) }
        ensures records { self.new.records ≡ self.old.records }
        ensures abandoned { self.new.abandoned ≡ self.old.abandoned }
        ensures owed { entries_due self.new.phase ≡ 1 }
    {
        let (x, y) = map.site_of(self.number, attempt.centre);
        self.x = x;
        self.y = y;
        self.seed = attempt.seed;
        self.needs = map.needs(self.number, x, y);
        self.taken += 1;
        self.next = 0;
        self.phase = if self.needs.len() == 0 {
            Phase::Refresh
        } else {
            Phase::Lock
        };
    }

    /// Reads the clocks of the needed edges, and brings the window's cells up to date.
    pub(crate) fn refresh<D: Board>(&mut self, map: &Map, board: &mut D)
        requires phase { IsIn map.now (value_of self.old) (D.end board.old).lists Refresh }
        requires board { IsEndOf map.now self.old.number (D.end board.old) }
        requires room { HasRoom self.old }
        ensures refreshes { Refreshes (at self.old (D.end board.old)) (at self.new (D.end board.new)) }
        ensures room { HasRoom self.new }
        ensures same { SameEnd (D.end board.old) (D.end board.new) }
        ensures moved { D.moved board.old board.new }
    {
        let greatest = read_clocks(&self.needs, u64::from(self.stamp), board);
        if greatest >= LAST_STAMP {
            self.phase = Phase::Worn;
            return;
        }
        self.cache.refresh(map, self.x, self.y, &self.needs, board);
        self.event_stamp = greatest as u32 + 1;
        self.phase = Phase::Behave;
    }

    /// Runs the event on the window. At an empty centre there is nothing to run.
    pub(crate) fn behave<B: Behave>(&mut self, map: &Map, behave: &mut B)
        requires phase { (lists : ℕ → EndLists) × IsIn map.now (value_of self.old) lists Behave }
        requires room { HasRoom self.old }
        ensures behaves { Behaves map.now (B.after behave.old) (value_of self.old) (value_of self.new) }
        ensures room { HasRoom self.new }
        ensures meaning { B.after behave.new ≡ B.after behave.old }
    {
        map.laws();
        self.phase = Phase::Write;
        self.idle = self.cache.cell(self.x, self.y).1 == Atom::new(0, 0);
        if self.idle {
            return;
        }
        self.cache
            .read_window(map, self.x, self.y, &mut self.window);
        behave.act(&mut self.window, self.seed);
    }

    /// Marks and publishes the window, sets the clocks and notes the event.
    pub(crate) fn write<D: Board>(&mut self, map: &Map, board: &mut D)
        requires phase { IsIn map.now (value_of self.old) (D.end board.old).lists Write }
        requires board { IsEndOf map.now self.old.number (D.end board.old) }
        requires room { HasRoom self.old }
        ensures writes { Writes map.now (at self.old (D.end board.old)) (at self.new (D.end board.new)) }
        ensures room { HasRoom self.new }
        ensures same { SameEnd (D.end board.old) (D.end board.new) }
        ensures moved { D.moved board.old board.new }
    {
        self.mark(map);
        self.cache.publish(map, self.x, self.y, &self.needs, board);
        write_clocks(&self.needs, u64::from(self.event_stamp), board);
        self.note_event();
    }

    /// Gives the sites of the window what the event left, and its stamp.
    fn mark(&mut self, map: &Map)
        requires map { map.now ≡ self.old.cache.map }
        requires centre { IsCentre self.old.cache.map self.old.cache.tile (site self.old.x self.old.y) }
        ensures marked { LeavesMarks self.old self.new.cache }
        ensures rest { self.new ≡ record self.old { cache = self.new.cache } }
    {
        if self.idle {
            self.cache.stamp(map, self.x, self.y, self.event_stamp);
        } else {
            self.cache
                .mark(map, self.x, self.y, &self.window, self.event_stamp);
        }
    }

    /// Notes the event.
    fn note_event(&mut self)
        requires taken { 1 ≤ self.old.taken }
        requires phase { self.old.phase ≡ Write }
        requires room { HasRoom self.old }
        ensures noted { value_of self.new ≡ tile_after_event (value_of self.old) }
        ensures room { HasRoom self.new }
    {
        let entry = Record {
            stamp: self.event_stamp,
            tile: self.number,
            attempt: self.taken - 1,
            x: self.x,
            y: self.y,
            seed: self.seed,
        };
        self.records.push_reserved(entry);
        self.stamp = self.event_stamp;
        self.next = 0;
        self.phase = if self.needs.len() == 0 {
            over(&self.attempts)
        } else {
            Phase::Give
        };
    }
}
