//! One tile of the plane.
ghost use Rattle.std.specs.Prelude.{◌≡◌, ◌+◌, IsTrue, IfOk};
ghost use Rattle.event_journal.specs.Logs.{log_of};
ghost use Rattle.edge_lock.specs.EndValues.{SameEnd};
ghost use Rattle.plane_grid.specs.PlaneGrids.{IsGridOf};
ghost use Rattle.border_cache.specs.Copies.{IsEndOf};
ghost use Rattle.tile_core.specs.declared.phase.Phase.TheVariants.{Draw, Worn};
ghost use Rattle.tile_core.specs.Values.{atoms_of, in_hand_at};
ghost use Rattle.tile_core.specs.Underway.{CanAttempt, IsFreshTile, IsSome, IsMade, KeepsOn, KeepsFar, IsPlayedAt, IsPlayedAll};
ghost use Rattle.tile_core.specs.Steps.{Steps, is_over};

use crate::phase::Phase;
use crate::state::State;
use border_cache::Cache;
use cell_grid::{Behave, Grid, Record};
use draw_stream::Attempts;
use edge_lock::Board;
use event_journal::{Abandoned, TileLog};
use feast_base::NoMemory;
use std::alloc::Global;
use std::marker::Model;
use tile_map::Map;
use window_sites::Window;

/// A tile with its copy of the sites that it holds, its attempts, and what acts on its windows.
///
/// Contracts see both: the tile (`core`, a `TileValue`), and what acts (`behave`).
#[derive(Drop)]
pub struct Tile<B> {
    state: State,
    behave: B,
}

impl<B> Model for Tile<B> {
    ghost use Rattle.tile_core.specs.Values.{TileWith, tile_with};

    ghost Value = { TileWith B };

    ghost use Rattle.tile_core.specs.Kept.{value_of, HasRoom};

    ghost view = { λ t. tile_with (value_of t.state) t.behave };

    ghost invariant = { λ t. HasRoom t.state };
}

impl<B: Behave> Tile<B> {
    /// The one step of the tile's phase; answers the phase that follows. At `Finished` and at
    /// `Worn` nothing happens.
    ///
    /// The map is the one that the tile was made with, the board this tile's end of its edges, and
    /// what the board's lists have is what this tile's steps have made.
    pub fn advance<D: Board>(&mut self, map: &Map, board: &mut D) -> Phase
        requires map { map.now ≡ self.old.core.cache.map }
        requires board { IsEndOf self.old.core.cache.map self.old.core.number (D.end board.old) }
        requires underway { IsSome self.old.core.cache.map (B.after self.old.behave) self.old.core (D.end board.old).lists }
        ensures step { Steps (B.after self.old.behave) self.old.core (D.end board.old) self.new.core (D.end board.new) }
        ensures on { KeepsOn (B.after self.old.behave) self.old.core (D.end board.old) self.new.core (D.end board.new) }
        ensures phase { result ≡ self.new.core.phase }
        ensures number { self.new.core.number ≡ self.old.core.number }
        ensures map { self.new.core.cache.map ≡ self.old.core.cache.map }
        ensures meaning { B.after self.new.behave ≡ B.after self.old.behave }
        ensures same { SameEnd (D.end board.old) (D.end board.new) }
        ensures moved { D.moved board.old board.new }
    {
        map.laws();
        self.state.step(map, board, &mut self.behave);
        self.state.phase
    }

    /// Steps until the attempt that is drawn now is over, or the tile is worn out; answers the
    /// phase. The conditions are those of `advance`, and the phase is `Draw`.
    pub fn attempt_whole<D: Board>(&mut self, map: &Map, board: &mut D) -> Phase
        requires draw { self.old.core.phase ≡ Draw }
        requires map { map.now ≡ self.old.core.cache.map }
        requires board { IsEndOf self.old.core.cache.map self.old.core.number (D.end board.old) }
        requires underway { IsSome self.old.core.cache.map (B.after self.old.behave) self.old.core (D.end board.old).lists }
        ensures far { KeepsFar (B.after self.old.behave) self.old.core (D.end board.old) self.new.core (D.end board.new) }
        ensures taken { self.new.core.taken ≡ self.old.core.taken + 1 }
        ensures over { IsTrue (is_over result) }
        ensures phase { result ≡ self.new.core.phase }
        ensures number { self.new.core.number ≡ self.old.core.number }
        ensures map { self.new.core.cache.map ≡ self.old.core.cache.map }
        ensures meaning { B.after self.new.behave ≡ B.after self.old.behave }
        ensures same { SameEnd (D.end board.old) (D.end board.new) }
        ensures moved { D.moved board.old board.new }
    {
        let mut phase = self.attempt(map, board);
        while !phase.is_over() {
            phase = self.advance(map, board);
        }
        phase
    }

    /// Draws an attempt and makes its steps up to its end, but for those that give edges back after a
    /// refusal; answers the phase. The conditions are those of `attempt_whole`.
    fn attempt<D: Board>(&mut self, map: &Map, board: &mut D) -> Phase
        requires draw { self.old.core.phase ≡ Draw }
        requires map { map.now ≡ self.old.core.cache.map }
        requires board { IsEndOf self.old.core.cache.map self.old.core.number (D.end board.old) }
        requires underway { IsSome self.old.core.cache.map (B.after self.old.behave) self.old.core (D.end board.old).lists }
        ensures far { KeepsFar (B.after self.old.behave) self.old.core (D.end board.old) self.new.core (D.end board.new) }
        ensures taken { self.new.core.taken ≡ self.old.core.taken + 1 }
        ensures phase { result ≡ self.new.core.phase }
        ensures number { self.new.core.number ≡ self.old.core.number }
        ensures map { self.new.core.cache.map ≡ self.old.core.cache.map }
        ensures meaning { B.after self.new.behave ≡ B.after self.old.behave }
        ensures same { SameEnd (D.end board.old) (D.end board.new) }
        ensures moved { D.moved board.old board.new }
    {
        self.state.attempt(map, board, &mut self.behave);
        self.state.phase
    }

    /// The phase: what the next step does.
    pub fn phase(&self) -> Phase
        ensures { result ≡ self.now.core.phase }
    {
        self.state.phase
    }

    /// The tile's number.
    pub fn number(&self) -> u32
        ensures { result ≡ self.now.core.number }
    {
        self.state.number
    }

    /// How many attempts were drawn.
    pub fn taken(&self) -> u64
        ensures { result ≡ self.now.core.taken }
    {
        self.state.taken
    }

    /// The site of the attempt in hand. None exactly in the phases `Draw` and `Finished`: in `Give`
    /// and `Back` the attempt has its entry, and the site is still the tile's until the next one is
    /// drawn.
    pub fn in_hand(&self) -> Option<(u32, u32)>
        ensures { result ≡ in_hand_at self.now.core.phase self.now.core.x self.now.core.y }
    {
        match self.state.phase {
            Phase::Draw | Phase::Finished => None,
            _ => Some((self.state.x, self.state.y)),
        }
    }

    /// The events so far, in order.
    pub fn records(&self) -> &[Record]
        ensures { result.now ≡ self.now.core.records }
    {
        self.state.records.as_slice()
    }

    /// The attempts that were given up so far, in order.
    pub fn abandoned(&self) -> &[Abandoned]
        ensures { result.now ≡ self.now.core.abandoned }
    {
        self.state.abandoned.as_slice()
    }

    /// What holds of each tile that is underway: between attempts it has played those that it drew,
    /// at the end all its attempts, and if it is worn out those that it drew, the last of which
    /// still has its edges. It does nothing.
    pub fn laws(&self)
        ensures draw { IsPlayedAt Draw self.now.core }
        ensures worn { IsPlayedAt Worn self.now.core }
        ensures end { IsPlayedAll self.now.core }
    {}

    /// The copy of the sites that the tile holds.
    pub fn cache(&self) -> &Cache
        ensures { result.now ≡ self.now.core.cache }
    {
        &self.state.cache
    }
}

impl<B: Behave + Drop> Tile<B> {
    /// A tile with the atoms of a grid, all of whose attempts are left. All its memory is allocated
    /// here. The grid has the size and the live sites of the map's plane; there are at most
    /// 1,000,000 attempts, each centre is a position of the tile's rectangle, and a tile that is
    /// off has none.
    pub fn new(
        alloc: Global,
        map: &Map,
        tile: u32,
        start: &Grid,
        attempts: Attempts,
        behave: B,
    ) -> Result<Tile<B>, NoMemory>
        requires start { IsGridOf map.now start.now }
        requires attempts { CanAttempt map.now tile attempts }
        ensures fresh { IfOk result (λ t. IsFreshTile map.now tile (atoms_of start.now) attempts t.core) }
        ensures acts { IfOk result (λ t. t.behave ≡ behave) }
    {
        let state = State::new(alloc, map, tile, start, attempts)?;
        Ok(Tile { state, behave })
    }

    /// The tile's events and abandoned attempts. What the lists of its end of each edge have is
    /// what its steps have made; of which board they are does not matter here.
    pub fn into_log(self) -> TileLog
        requires { IsMade self.core.cache.map self.core }
        ensures { result ≡ log_of self.core.number self.core.records self.core.abandoned }
    {
        let Tile { state, behave: _ } = self;
        TileLog::new(state.number, state.records, state.abandoned)
    }
}
