//! Cells kept as two planes, one of atoms and one of stamps.
ghost use Rattle.std.specs.Prelude.{◌≡◌, ◌+◌, ◌*◌, ◌<◌, ◌≤◌, length, slice_index_or, slice_set};
ghost use Rattle.window_sites.specs.Inner.{inner_window};
ghost use Rattle.window_sites.specs.Window.{atom_at};
ghost use Rattle.border_cache.specs.Cells.{cell_value, paired_cells, cell_atoms};
ghost use Rattle.border_cache.specs.News.{no_cell};
ghost use Rattle.border_cache.specs.Rows.{GivesWhole, StampsCells, stamped_at};
ghost use Rattle.window_sites.specs.declared.window.TheConstants.{MOST_COLUMNS};

use crate::cell::Cell;
use crate::rows::{stamp_rows, stamp_run};
use bit_field::Atom;
use cell_grid::put_inner;
use std::marker::Model;
use window_sites::Window;

/// The cells of a rectangle, row by row. Contracts see them as one list.
#[derive(Drop)]
pub(crate) struct Cells {
    stamps: Vec<u32>,
    atoms: Vec<Atom>,
}

impl Model for Cells {
    ghost use Rattle.std.specs.Prelude.{◌≡◌, List, length};
    ghost use Rattle.border_cache.specs.Cells.{CellValue, paired_cells};

    ghost Value = { List CellValue };

    ghost view = { λ c. paired_cells c.stamps.items c.atoms.items };

    ghost invariant = { λ c. length c.stamps.items ≡ length c.atoms.items };
}

impl Cells {
    /// The cells with these stamps and these atoms.
    pub(crate) fn new(stamps: Vec<u32>, atoms: Vec<Atom>) -> Cells
        requires { length stamps.items ≡ length atoms.items }
        ensures { result ≡ paired_cells stamps.items atoms.items }
    {
        Cells { stamps, atoms }
    }

    /// The cell of a place.
    pub(crate) fn get(&self, place: usize) -> Cell
        requires { place < length self.now }
        ensures { result ≡ slice_index_or self.now place no_cell }
    {
        Cell::new(self.stamps[place], self.atoms[place])
    }

    /// Gives a place a cell.
    pub(crate) fn set(&mut self, place: usize, cell: Cell)
        requires { place < length self.old }
        ensures { self.new ≡ slice_set self.old place cell }
    {
        self.stamps[place] = cell.stamp();
        self.atoms[place] = cell.atom();
    }

    /// Reads the window of 41 live sites whose nine rows and nine columns start at place `low`. The
    /// rectangle has `width` columns.
    pub(crate) fn read_window(&self, low: usize, width: usize, window: &mut Window)
        requires small { width ≤ MOST_COLUMNS }
        requires whole { low + 8 * width + 8 < length self.now }
        ensures { window.new ≡ inner_window (cell_atoms self.now) low width }
    {
        window.refill(self.atoms.as_slice(), low, width);
    }

    /// Gives each site of such a window its atom of an event's window and a stamp.
    pub(crate) fn mark(&mut self, low: usize, width: usize, window: &Window, stamp: u32)
        requires small { width ≤ MOST_COLUMNS }
        requires wide { 9 ≤ width }
        requires whole { low + 8 * width + 8 < length self.old }
        ensures { GivesWhole low width (λ n. cell_value stamp (atom_at window.now n)) self.old self.new }
    {
        put_inner(self.atoms.as_mut_slice(), low, width, window.atoms());
        stamp_rows(self.stamps.as_mut_slice(), low, width, stamp);
    }

    /// Gives each site of such a window a stamp. Each keeps its atom.
    pub(crate) fn stamp(&mut self, low: usize, width: usize, stamp: u32)
        requires small { width ≤ MOST_COLUMNS }
        requires whole { low + 8 * width + 8 < length self.old }
        ensures { GivesWhole low width (stamped_at self.old low width stamp) self.old self.new }
    {
        stamp_rows(self.stamps.as_mut_slice(), low, width, stamp);
    }

    /// Gives a run of places a stamp. Each keeps its atom.
    pub(crate) fn stamp_run(&mut self, first: usize, count: usize, stamp: u32)
        requires { first + count ≤ length self.old }
        ensures { StampsCells first count stamp self.old self.new }
    {
        stamp_run(self.stamps.as_mut_slice(), first, count, stamp);
    }
}
