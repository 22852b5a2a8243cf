//! A board that counts the cells that are read.
ghost use Rattle.std.specs.Prelude.{◌≡◌, ◌<◌, length};
ghost use Rattle.tile_map.specs.Edges.{pairs_of};
ghost use Rattle.edge_lock.specs.PlainBoard.{edge_at};
ghost use Rattle.tile_core.specs.Boards.{IsBoardOf};

use edge_lock::{Board, PlainBoard, Take};
use tile_map::Map;

/// A plain board whose edges share this many sites each, with the number of cells that were read.
#[derive(Drop)]
pub struct CountedBoard {
    /// The board.
    pub board: PlainBoard,
    /// How many sites each edge shares.
    pub sites: u32,
    /// How often the first register of a shared site was read. It stays at its greatest value.
    pub cells: u64,
}

impl Board for CountedBoard {
    ghost use Rattle.edge_lock.specs.PlainBoard.{acting_end, Moved, stays, moved_on};

    ghost end = { λ b. acting_end b.board };

    ghost moved = { λ x y. Moved x.board y.board };

    fn try_take(&mut self, edge: u32, attempt: u64) -> Take {
        self.board.try_take(edge, attempt)
    }

    fn read(&mut self, edge: u32, register: u32) -> u64 {
        self.count(register);
        self.board.read(edge, register)
    }

    fn write(&mut self, edge: u32, register: u32, value: u64) {
        self.board.write(edge, register, value);
    }

    fn give(&mut self, edge: u32) {
        self.board.give(edge);
    }

    fn give_back(&mut self, edge: u32) {
        self.board.give_back(edge);
    }

    ghost moved_same = { λ x. stays x.board };

    ghost moved_on = { λ x y z. moved_on x.board y.board z.board };
}

impl CountedBoard {
    /// Counts a read of a register, if it is the first of a shared site.
    fn count(&mut self, register: u32)
        ensures same { self.new.board ≡ self.old.board }
        ensures sites { self.new.sites ≡ self.old.sites }
    {
        if register % 2 == 1 && u64::from(register) < 2 * u64::from(self.sites) {
            self.cells = self.cells.saturating_add(1);
        }
    }

    /// How many news bits of an end of an edge are 1.
    pub fn news_bits(&mut self, map: &Map, edge: u32, end: u32) -> u32
        requires board { IsBoardOf map.now self.old.board }
        requires edge { edge < length (pairs_of map.now) }
        requires end { end < 2 }
        ensures same { self.new.board ≡ self.old.board }
    {
        let sites = map.shared(edge);
        let words = (sites + 63) / 64;
        let mut bits = 0;
        for word in 0..words {
            let register = 1 + 2 * sites + end * words + word;
            let word = self.board.word(edge, register);
            bits = word.count_ones().saturating_add(bits);
        }
        bits
    }
}
