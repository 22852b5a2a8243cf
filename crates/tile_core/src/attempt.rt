//! A whole attempt: its phases one after another.
ghost use Rattle.std.specs.Prelude.{◌≡◌, ◌+◌};
ghost use Rattle.edge_lock.specs.EndValues.{SameEnd};
ghost use Rattle.tile_core.specs.declared.phase.Phase.TheVariants.{Draw};
ghost use Rattle.tile_core.specs.Kept.{at, HasRoom, IsReady, IsReadySomehow};
ghost use Rattle.tile_core.specs.Underway.{GoesAnyhow, GoesFar, GoesThrough};

use crate::phase::Phase;
use crate::state::State;
use cell_grid::Behave;
use edge_lock::Board;
use tile_map::Map;

impl State {
    /// Draws an attempt and makes its steps up to its end, but for those that give edges back after a
    /// refusal.
    pub(crate) fn attempt<D: Board, B: Behave>(&mut self, map: &Map, board: &mut D, behave: &mut B)
        requires draw { self.old.phase ≡ Draw }
        requires ready { IsReady map.now (B.after behave.old) self.old (D.end board.old) }
        ensures far { GoesFar map.now (B.after behave.old) (at self.old (D.end board.old)) (at self.new (D.end board.new)) }
        ensures taken { self.new.taken ≡ self.old.taken + 1 }
        ensures number { self.new.number ≡ self.old.number }
        ensures room { HasRoom self.new }
        ensures meaning { B.after behave.new ≡ B.after behave.old }
        ensures same { SameEnd (D.end board.old) (D.end board.new) }
        ensures moved { D.moved board.old board.new }
    {
        map.laws();
        self.draw(map);
        self.take_edges(map, board);
        self.event(map, board, behave);
        self.give_edges(map, board);
    }

    /// Tries the needed edges, as long as each is got.
    fn take_edges<D: Board>(&mut self, map: &Map, board: &mut D)
        requires ready { IsReadySomehow map.now self.old (D.end board.old) }
        ensures goes { GoesAnyhow map.now (at self.old (D.end board.old)) (at self.new (D.end board.new)) }
        ensures room { HasRoom self.new }
        ensures same { SameEnd (D.end board.old) (D.end board.new) }
        ensures moved { D.moved board.old board.new }
    {
        map.laws();
        while self.phase == Phase::Lock {
            self.lock(map, board);
        }
    }

    /// Makes the event of an attempt that has its edges.
    fn event<D: Board, B: Behave>(&mut self, map: &Map, board: &mut D, behave: &mut B)
        requires ready { IsReady map.now (B.after behave.old) self.old (D.end board.old) }
        ensures goes { GoesThrough map.now (B.after behave.old) (at self.old (D.end board.old)) (at self.new (D.end board.new)) }
        ensures room { HasRoom self.new }
        ensures meaning { B.after behave.new ≡ B.after behave.old }
        ensures same { SameEnd (D.end board.old) (D.end board.new) }
        ensures moved { D.moved board.old board.new }
    {
        map.laws();
        if self.phase != Phase::Refresh {
            return;
        }
        self.refresh(map, board);
        if self.phase != Phase::Behave {
            return;
        }
        self.behave(map, behave);
        self.write(map, board);
    }

    /// Frees the edges of an event.
    fn give_edges<D: Board>(&mut self, map: &Map, board: &mut D)
        requires ready { IsReadySomehow map.now self.old (D.end board.old) }
        ensures goes { GoesAnyhow map.now (at self.old (D.end board.old)) (at self.new (D.end board.new)) }
        ensures room { HasRoom self.new }
        ensures same { SameEnd (D.end board.old) (D.end board.new) }
        ensures moved { D.moved board.old board.new }
    {
        map.laws();
        while self.phase == Phase::Give {
            self.give(map, board);
        }
    }
}
