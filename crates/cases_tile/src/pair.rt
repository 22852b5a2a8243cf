//! Two tiles of 16 by 16 beside each other, on one board.
ghost use Rattle.std.specs.Prelude.{◌≡◌, ◌<◌, IfOk};
ghost use Rattle.tile_map.specs.Plane.{whole_plane};
ghost use Rattle.plane_grid.specs.PlaneGrids.{IsGridOf};
ghost use Rattle.cell_grid.specs.Tried.{after_turn};
ghost use Rattle.tile_core.specs.Boards.{IsBoardOf, IsOnBoard};
ghost use Rattle.cases_tile.specs.Pairs.{IsJustMade, OthersStayOn, AreTwo};

use crate::alone::Turn;
use crate::counted::CountedBoard;
use bit_field::Atom;
use cell_grid::Grid;
use draw_stream::{Attempt, AttemptPlan, Script};
use edge_lock::PlainBoard;
use feast_base::NoMemory;
use std::alloc::Global;
use tile_core::{Phase, Tile};
use tile_map::Map;

/// Two tiles, the board that both act on, and their map.
pub struct Pair {
    /// The plane.
    pub map: Map,
    /// Tile 0.
    pub left: Tile<Turn>,
    /// Tile 1.
    pub right: Tile<Turn>,
    /// The board.
    pub board: CountedBoard,
}

impl Drop for Pair {
    fn drop(self) {
        let Pair {
            map: _map,
            left: _left,
            right: _right,
            board: _board,
        } = self;
    }
}

/// One of the two tiles.
#[derive(Clone, Copy)]
pub enum Side {
    /// Tile 0.
    Left,
    /// Tile 1.
    Right,
}

/// The grid at the start: one atom at (15, 4), beside the border.
fn first_grid(alloc: Global, map: &Map) -> Result<Grid, NoMemory>
    requires { map.now ≡ whole_plane 2 1 16 16 }
    ensures { IfOk result (λ g. IsGridOf map.now g) }
{
    let mut start = Grid::new(alloc, 32, 16)?;
    start.set(15, 4, Atom::new(1, 0));
    Ok(start)
}

/// A tile that has one attempt, at this position.
fn tile(
    alloc: Global,
    map: &Map,
    number: u32,
    start: &Grid,
    centre: u32,
) -> Result<Tile<Turn>, NoMemory>
    requires map { map.now ≡ whole_plane 2 1 16 16 }
    requires start { IsGridOf map.now start.now }
    requires number { number < 2 }
    requires centre { centre < 256 }
    ensures { IfOk result (λ t. IsJustMade map.now number t.core) }
{
    let list = vec![in alloc; Attempt { centre, seed: 0 }]?;
    let plan = AttemptPlan::scripted(vec![in alloc; Script::new(list)]?);
    let attempts = plan.of_tile(alloc, 0)?;
    let tile = Tile::new(alloc, map, number, start, attempts, Turn)?;
    Ok(tile)
}

/// One step of a tile on a board where others are underway too.
fn advance(tile: &mut Tile<Turn>, map: &Map, board: &mut CountedBoard) -> Phase
    requires board { IsBoardOf map.now board.old.board }
    requires tile { IsOnBoard map.now after_turn tile.old.core board.old.board }
    ensures phase { result ≡ tile.new.core.phase }
    ensures number { tile.new.core.number ≡ tile.old.core.number }
    ensures board { IsBoardOf map.now board.new.board }
    ensures tile { IsOnBoard map.now after_turn tile.new.core board.new.board }
    ensures others { OthersStayOn map.now tile.old.core.number board.old.board board.new.board }
{
    board.board.turn_to(tile.number());
    tile.advance(map, board)
}

/// Both tiles with one attempt each, at the two sides of their border: (15, 4), where an atom is, and
/// (16, 4).
fn tiles(alloc: Global, map: &Map) -> Result<(Tile<Turn>, Tile<Turn>), NoMemory>
    requires { map.now ≡ whole_plane 2 1 16 16 }
    ensures { IfOk result (λ r. IsJustMade map.now 0 r.0.core × IsJustMade map.now 1 r.1.core) }
{
    let start = first_grid(alloc, map)?;
    let left = tile(alloc, map, 0, &start, 79)?;
    let right = tile(alloc, map, 1, &start, 64)?;
    Ok((left, right))
}

impl Pair {
    /// Two tiles with one attempt each, at the two sides of their border.
    pub fn new(alloc: Global) -> Result<Pair, NoMemory>
        ensures { IfOk result (λ p. AreTwo p.map p.left.core p.right.core p.board.board) }
    {
        let map = Map::new(alloc, 2, 1, 16, 16)?;
        let plain = PlainBoard::new(alloc, &map)?;
        let (left, right) = tiles(alloc, &map)?;
        let board = CountedBoard {
            board: plain,
            sites: 128,
            cells: 0,
        };
        Ok(Pair {
            map,
            left,
            right,
            board,
        })
    }

    /// One step of one of the tiles; answers the phase that follows.
    pub fn step(&mut self, side: Side) -> Phase
        requires { AreTwo self.old.map self.old.left.core self.old.right.core self.old.board.board }
        ensures { AreTwo self.new.map self.new.left.core self.new.right.core self.new.board.board }
    {
        match side {
            Side::Left => advance(&mut self.left, &self.map, &mut self.board),
            Side::Right => advance(&mut self.right, &self.map, &mut self.board),
        }
    }

    /// One step of one tile after another; answers the phases that follow.
    pub fn steps(&mut self, alloc: Global, order: &[Side]) -> Result<Vec<Phase>, NoMemory>
        requires { AreTwo self.old.map self.old.left.core self.old.right.core self.old.board.board }
        ensures { AreTwo self.new.map self.new.left.core self.new.right.core self.new.board.board }
    {
        let mut phases = Vec::new(alloc);
        for side in order {
            phases.push(self.step(*side))?;
        }
        Ok(phases)
    }

    /// How many news bits of an end of the edge between the tiles are 1.
    pub fn news_bits(&mut self, end: u32) -> u32
        requires pair { AreTwo self.old.map self.old.left.core self.old.right.core self.old.board.board }
        requires end { end < 2 }
        ensures { AreTwo self.new.map self.new.left.core self.new.right.core self.new.board.board }
    {
        self.board.news_bits(&self.map, 0, end)
    }
}
