//! Events that can be undone.
ghost use Rattle.std.specs.Prelude.{◌≡◌, ◌<◌, ◌+◌, ◌∷◌, ◌++◌, [], IfOk};
ghost use Rattle.cell_grid.specs.Grid.{ArePlanesAlike, IsLive, event};
ghost use Rattle.event_film.specs.Films.{CanUndo, Undoes, film_value, kept_of};

use crate::frame::Frame;
use crate::words::Words;
use cell_grid::{Behave, Grid, Record};
use feast_base::NoMemory;
use std::alloc::Global;
use std::marker::Model;
use window_sites::Window;

/// Events that were made on a grid, in their order, and room for some more. Contracts see the list
/// of them, each as its centre and the window before it, and how many more there is room for.
///
/// An atom has a word of 64 bits and one of 32. The words of a window's atoms that aren't 0 are stored,
/// those of all events one after another.
#[derive(Drop)]
pub struct Film {
    frames: Vec<Frame>,
    words: Words,
    spare: usize,
    /// The window of the event that is being made or undone.
    window: Window,
}

impl Model for Film {
    ghost use Rattle.std.specs.Vec.{vec_capacity};
    ghost use Rattle.event_film.specs.Films.{FilmValue, film_value};
    ghost use Rattle.event_film.specs.Packed.{HasRoom, events_in};

    ghost Value = { FilmValue };

    ghost view = { λ f. film_value (events_in f.frames.items f.words.lows f.words.highs) f.spare };

    ghost invariant = { λ f. HasRoom (vec_capacity f.frames) f.spare f.frames.items f.words };
}

impl Film {
    /// A film that keeps no event yet and has room for `events` of them. All its memory is
    /// allocated here, 524 bytes an event, since no word of the 41 atoms of a window may be 0; of that
    /// memory, what the words that aren't 0 need is used. `NoMemory` if there is none.
    pub fn new(alloc: Global, events: usize) -> Result<Film, NoMemory>
        ensures { IfOk result (λ f. f ≡ film_value [] events) }
    {
        // Where the product is too large for a number, no memory has room for it either.
        let sites = events.saturating_mul(41);
        Ok(Film {
            frames: Vec::with_capacity(alloc, events)?,
            words: Words::new(alloc, sites)?,
            spare: events,
            window: Window::empty(),
        })
    }

    /// How many more events there is room for.
    pub fn spare(&self) -> usize
        ensures { result ≡ self.now.spare }
    {
        self.spare
    }

    /// Makes the event of a record on a grid, and keeps it. Its centre is a live site, and there is
    /// room for it.
    pub fn apply<B: Behave>(&mut self, grid: &mut Grid, entry: &Record, behave: &mut B)
        requires spare { 0 < self.old.spare }
        requires live { IsLive grid.old entry.now.x entry.now.y }
        ensures kept { self.new.kept ≡ self.old.kept ++ kept_of grid.old entry.now ∷ [] }
        ensures spare { self.new.spare + 1 ≡ self.old.spare }
        ensures grid { grid.new ≡ event (B.after behave.old) grid.old entry.now.x entry.now.y entry.now.seed }
        ensures plane { ArePlanesAlike grid.old grid.new }
        ensures meaning { B.after behave.new ≡ B.after behave.old }
    {
        grid.read_window(entry.x, entry.y, &mut self.window);
        self.window.laws();
        let frame = Frame::of(entry.x, entry.y, &self.window);
        self.words.push(&frame, &self.window);
        self.frames.push_reserved(frame);
        self.spare -= 1;
        grid.event_in(entry.x, entry.y, entry.seed, behave, &mut self.window);
    }

    /// Undoes the last event: each live site of its window gets back the atom that it had before,
    /// and all other sites stay. The centre of that event is a live site of the grid. False exactly
    /// when no event is kept, and then nothing changes.
    pub fn undo(&mut self, grid: &mut Grid) -> bool
        requires { CanUndo self.old grid.old }
        ensures undoes { Undoes self.old self.new grid.old grid.new result }
        ensures plane { ArePlanesAlike grid.old grid.new }
    {
        let Some(frame) = self.frames.pop() else {
            return false;
        };
        self.spare += 1;
        grid.read_window(frame.x, frame.y, &mut self.window);
        // Most events leave their window as it was.
        if let Some(before) = self.words.take_other(&frame, &self.window) {
            grid.put_window(frame.x, frame.y, &before);
        }
        true
    }
}
