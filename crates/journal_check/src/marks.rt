//! The events that need each edge, tile by tile.
ghost use Rattle.std.specs.Prelude.{◌≡◌, ◌*◌, ◌+◌, ◌<◌, ◌++◌, ◌∷◌, [], All, IfOk, OnOk, length, replicate};
ghost use Rattle.std.specs.List.Sorted.{IsStrictlyIncreasing};
ghost use Rattle.tile_map.specs.Edges.{pairs_of};
ghost use Rattle.tile_map.specs.Plane.{tiles_of};
ghost use Rattle.journal_check.specs.Clocks.{IsInside};
ghost use Rattle.journal_check.specs.Marks.{AddsMark, AreMarks, AreRising, is_list_of, marks_at};

use crate::mark::Mark;
use cell_grid::Record;
use feast_base::NoMemory;
use std::alloc::Global;
use std::marker::Model;
use tile_map::{Map, Needs};

/// The marks of a tile's events that need an edge, in the order of the journal.
#[derive(Drop)]
pub(crate) struct Marks {
    list: Vec<Mark>,
}

impl Model for Marks {
    ghost use Rattle.std.specs.Prelude.{List};
    ghost use Rattle.journal_check.specs.declared.mark.Mark.{Mark};

    ghost Value = { List Mark };

    ghost view = { λ m. m.list.items };
}

impl Marks {
    /// No marks.
    fn new(alloc: Global) -> Marks
        ensures { result ≡ [] }
    {
        Marks {
            list: Vec::new(alloc),
        }
    }

    /// Appends a mark.
    fn push(&mut self, mark: Mark) -> Result<(), NoMemory>
        ensures { OnOk result (self.new ≡ self.old ++ mark ∷ []) }
    {
        self.list.push(mark)?;
        Ok(())
    }

    /// The marks as a slice.
    pub(crate) fn as_slice(&self) -> &[Mark]
        ensures { result.now ≡ self.now }
    {
        self.list.as_slice()
    }
}

/// This many lists, each without a mark.
fn no_marks(alloc: Global, count: usize) -> Result<Vec<Marks>, NoMemory>
    ensures { IfOk result (λ v. v.items ≡ replicate count []) }
{
    let mut table = Vec::new(alloc);
    for _place in 0..count {
        table.push(Marks::new(alloc))?;
    }
    Ok(table)
}

/// Appends a mark to the lists of a tile and of each of some edges.
fn add(
    table: &mut Vec<Marks>,
    needs: &Needs,
    tiles: u32,
    tile: u32,
    mark: Mark,
) -> Result<(), NoMemory>
    requires tile { tile < tiles }
    requires within { All (λ e. e * tiles + tile < length table.old.items) needs.now }
    requires rising { IsStrictlyIncreasing needs.now }
    ensures many { length table.new.items ≡ length table.old.items }
    ensures adds { OnOk result (AddsMark table.old.items (is_list_of needs.now tiles tile) mark table.new.items) }
{
    for i in 0..needs.len() {
        let slot = needs.edge(i) as usize * tiles as usize + tile as usize;
        let marks = &mut table[slot];
        marks.push(mark)?;
    }
    Ok(())
}

/// For each edge and each tile the marks of the tile's events that need the edge. Those of edge e
/// and tile t are at position e times the number of tiles, plus t.
pub(crate) fn marks_of(alloc: Global, map: &Map, records: &[Record]) -> Result<Vec<Marks>, NoMemory>
    requires { All (IsInside map.now) records.now }
    ensures { IfOk result (λ v. AreMarks map.now records.now v.items) }
{
    map.laws();
    let tiles = map.tiles();
    let mut table = no_marks(alloc, map.edges() as usize * tiles as usize)?;
    for k in 0..records.len() {
        let entry = records[k];
        let needs = map.needs(entry.tile, entry.x, entry.y);
        let mark = Mark {
            attempt: entry.attempt,
            stamp: entry.stamp,
        };
        add(&mut table, &needs, tiles, entry.tile, mark)?;
    }
    Ok(table)
}

/// The marks of a tile's events that need an edge.
pub(crate) fn marks_at<'a>(map: &Map, table: &'a [Marks], edge: u32, tile: u32) -> &'a [Mark]
    requires edge { edge < length (pairs_of map.now) }
    requires tile { tile < tiles_of map.now }
    requires many { length table.now ≡ length (pairs_of map.now) * tiles_of map.now }
    requires rising { All AreRising table.now }
    ensures value { result.now ≡ marks_at map.now table.entry.now edge tile }
    ensures rising { AreRising result.now }
{
    let tiles = map.tiles() as usize;
    table[edge as usize * tiles + tile as usize].as_slice()
}
