//! A flat grid of atoms: its sites, windows and events.
ghost use Rattle.std.specs.Prelude.{◌≡◌, false, All, ◌+◌, ◌*◌, ◌≤◌, ◌<◌, ◌^◌, ℕ, IfOk, IfSome, IsSome, MatchOption, None, length, slice_index_or};
ghost use Rattle.std.specs.Int.RustNames.{unsigned_abs};
ghost use Rattle.bit_field.specs.Atom.{empty_atom};
ghost use Rattle.window_sites.specs.Sites.{shift};
ghost use Rattle.cell_grid.specs.Calm.{IsCalm, IsCorner};
ghost use Rattle.cell_grid.specs.Grid.{GridValue, IsLive, ArePlanesAlike, empty_grid, site_atom, with_site, place_of, atom_at_place, window_of, put_window, event, below};
ghost use Rattle.cell_grid.specs.Records.{replay};
ghost use Rattle.cell_grid.specs.Shut.{IsEmptyIn, rectangle, shut};
ghost use Rattle.cell_grid.specs.Steps.{IsLivePlace, AreLivePlaces, ArePlacesOf, with_atom};
ghost use Rattle.window_sites.specs.declared.window.TheConstants.{MOST_COLUMNS};

use crate::behave::Behave;
use crate::inner::put_inner;
use crate::marks::{Rectangle, clear};
use crate::record::Record;
use bit_field::Atom;
use feast_base::NoMemory;
use std::alloc::Global;
use std::marker::Model;
use window_sites::{Window, offset};

/// A flat grid of atoms. A site that is not live is empty.
#[derive(Drop)]
pub struct Grid {
    width: u32,
    height: u32,
    atoms: Vec<Atom>,
    live: Vec<bool>,
    /// A site is marked exactly if every site of the plane within 4 columns and 4 rows is live.
    calm: Vec<bool>,
}

impl Model for Grid {
    ghost use Rattle.cell_grid.specs.Grid.{GridValue, IsGrid};
    ghost use Rattle.cell_grid.specs.Calm.{AreCalm};

    ghost Value = { GridValue };

    ghost view = { λ g. record { width = g.width; height = g.height; atoms = g.atoms.items; live = g.live.items } };

    ghost invariant = { λ g. IsGrid (record { width = g.width; height = g.height; atoms = g.atoms.items; live = g.live.items }) × AreCalm g.width g.height g.live.items g.calm.items };
}

/// The coordinate plus an offset, if the sum is not negative and is below `end`. (A negative sum
/// wraps to a large number, so one comparison covers both.)
#[tactic(auto, using(crate::proofs::Shifts::shift_around))]
fn shift_below(x: u32, by: i32, end: u32) -> Option<u32>
    requires small { x < 2 ^ 31 }
    requires near { unsigned_abs by ≤ 4 }
    requires low { end ≤ 2 ^ 31 }
    ensures value { result ≡ below end (shift x by) }
    ensures inside { IfSome result (λ u. u < end) }
{
    let to = x.wrapping_add_signed(by);
    if to < end { Some(to) } else { None }
}

impl Grid {
    /// A grid whose sites are all live and empty. It has 8 to 512 columns and 8 to 512 rows.
    /// `NoMemory` if memory runs out.
    pub fn new(alloc: Global, width: u32, height: u32) -> Result<Grid, NoMemory>
        requires wide { (8 ≤ width) × (width ≤ MOST_COLUMNS) }
        requires high { (8 ≤ height) × (height ≤ MOST_COLUMNS) }
        ensures { IfOk result (λ g. g ≡ empty_grid width height) }
    {
        let count = (width * height) as usize;
        let Ok(atoms) = vec![in alloc; Atom::new(0, 0); count] else {
            return Err(NoMemory);
        };
        let Ok(live) = vec![in alloc; true; count] else {
            return Err(NoMemory);
        };
        let Ok(calm) = vec![in alloc; true; count] else {
            return Err(NoMemory);
        };
        Ok(Grid {
            width,
            height,
            atoms,
            live,
            calm,
        })
    }

    /// The number of columns.
    pub fn width(&self) -> u32
        ensures value { result ≡ self.now.width }
        ensures wide { 8 ≤ result }
    {
        self.width
    }

    /// The number of rows.
    pub fn height(&self) -> u32
        ensures value { result ≡ self.now.height }
        ensures high { 8 ≤ result }
    {
        self.height
    }

    /// The atoms in row order.
    pub fn atoms(&self) -> &[Atom]
        ensures { result.now ≡ self.now.atoms }
    {
        self.atoms.as_slice()
    }

    /// The atoms of a row, one for each column.
    pub fn row(&self, y: u32) -> &[Atom]
        requires { y < self.now.height }
        ensures count { length result.now ≡ self.now.width }
        ensures atoms { (x : ℕ) → x < self.now.width → slice_index_or result.now x empty_atom ≡ site_atom self.now x y }
    {
        let width = self.width as usize;
        let first = y as usize * width;
        &self.atoms[first..first + width]
    }

    /// Whether a site is live.
    pub fn is_live(&self, x: u32, y: u32) -> bool
        requires column { x < self.now.width }
        requires row { y < self.now.height }
        ensures { result ≡ slice_index_or self.now.live (y * self.now.width + x) false }
    {
        self.live[(y * self.width + x) as usize]
    }

    /// The atom of a site.
    pub fn get(&self, x: u32, y: u32) -> Atom
        requires column { x < self.now.width }
        requires row { y < self.now.height }
        ensures { result ≡ site_atom self.now x y }
    {
        self.atoms[(y * self.width + x) as usize]
    }

    /// Puts an atom at a live site.
    pub fn set(&mut self, x: u32, y: u32, atom: Atom)
        requires live { IsLive self.old x y }
        ensures { self.new ≡ with_site self.old x y atom }
    {
        self.atoms[(y * self.width + x) as usize] = atom;
    }

    /// Makes the sites of a rectangle not live. It has `w` columns and `h` rows, lies in the plane and
    /// is empty.
    pub fn shut(&mut self, x: u32, y: u32, w: u32, h: u32)
        requires columns { x + w ≤ self.old.width }
        requires rows { y + h ≤ self.old.height }
        requires empty { IsEmptyIn self.old (rectangle x y w h) }
        ensures { self.new ≡ shut self.old (rectangle x y w h) }
    {
        let width = self.width;
        let inside = Rectangle {
            left: x,
            top: y,
            right: x + w,
            bottom: y + h,
        };
        clear(self.live.as_mut_slice(), width, inside);
        clear(self.calm.as_mut_slice(), width, inside.widen());
    }

    /// The index of site `n` of the window at `(x, y)`, if that site is in the plane and live.
    fn place_of(&self, x: u32, y: u32, n: u8) -> Option<usize>
        requires column { x < self.now.width }
        requires row { y < self.now.height }
        requires n_in { n ≤ 40 }
        ensures place { result ≡ place_of self.now x y n }
        ensures live { IsLivePlace self.now result }
    {
        let (dx, dy) = offset(n);
        let u = shift_below(x, dx, self.width)?;
        let v = shift_below(y, dy, self.height)?;
        let i = (v * self.width + u) as usize;
        if self.live[i] { Some(i) } else { None }
    }

    /// The index at which the nine rows and nine columns around a site start, if they are all in the
    /// plane and live.
    fn corner(&self, x: u32, y: u32) -> Option<usize>
        requires column { x < self.now.width }
        requires row { y < self.now.height }
        ensures { MatchOption result (IsCalm self.now x y → ⊥) (λ low. IsCorner self.now x y low) }
    {
        let width = self.width;
        let height = self.height;
        if x < 4 || y < 4 || width <= x + 4 || height <= y + 4 {
            return None;
        }
        if self.calm[(y * width + x) as usize] {
            Some(((y - 4) * width + (x - 4)) as usize)
        } else {
            None
        }
    }

    /// The indices of all sites of the window at `(x, y)`.
    fn places(&self, x: u32, y: u32) -> [Option<usize>; 41]
        requires column { x < self.now.width }
        requires row { y < self.now.height }
        ensures places { ArePlacesOf self.now x y result }
        ensures live { AreLivePlaces self.now result }
    {
        let mut places = [None; 41];
        for n in 0..41u8 {
            places[n as usize] = self.place_of(x, y, n);
        }
        places
    }

    /// The atom that a window shows at a site with this index.
    fn atom_at_place(&self, place: Option<usize>) -> Atom
        requires { IsLivePlace self.now place }
        ensures { result ≡ atom_at_place self.now place }
    {
        match place {
            Some(i) => self.atoms[i],
            None => Atom::new(0, 0),
        }
    }

    /// The window whose sites have these indices, read one by one.
    fn window_by_sites(&self, places: &[Option<usize>; 41]) -> Window
        requires live { AreLivePlaces self.now places.now }
        requires centre { IsSome (slice_index_or places.now 0 None) }
        ensures { (x y : ℕ) → ArePlacesOf self.now x y places.now → result ≡ window_of self.now x y }
    {
        let mut atoms = [Atom::new(0, 0); 41];
        let mut live = [false; 41];
        for n in 0..41 {
            let place = places[n];
            atoms[n] = self.atom_at_place(place);
            live[n] = place.is_some();
        }
        Window::new(atoms, live)
    }

    /// The window at a live site.
    pub fn window_at(&self, x: u32, y: u32) -> Window
        requires live { IsLive self.now x y }
        ensures { result ≡ window_of self.now x y }
    {
        let mut window = Window::empty();
        self.read_window(x, y, &mut window);
        window
    }

    /// As `window_at`, into a window of the caller's. Keep one to read many.
    #[tactic(auto, using(crate::proofs::Windows::centre_found))]
    pub fn read_window(&self, x: u32, y: u32, window: &mut Window)
        requires live { IsLive self.now x y }
        ensures { window.new ≡ window_of self.now x y }
    {
        match self.corner(x, y) {
            Some(low) => window.refill(self.atoms.as_slice(), low, self.width as usize),
            None => *window = self.window_by_sites(&self.places(x, y)),
        }
    }

    /// Writes an atom at an index, if there is one.
    fn put_place(&mut self, place: Option<usize>, atom: Atom)
        requires { IsLivePlace self.old place }
        ensures { self.new ≡ with_atom self.old place atom }
    {
        if let Some(i) = place {
            self.atoms[i] = atom;
        }
    }

    /// Writes a window back, one by one, to the sites with these indices.
    fn put_by_sites(&mut self, places: &[Option<usize>; 41], window: &Window)
        requires live { AreLivePlaces self.old places.now }
        ensures grid { (x y : ℕ) → ArePlacesOf self.old x y places.now → self.new ≡ put_window self.old x y window.now }
        ensures plane { ArePlanesAlike self.old self.new }
    {
        for n in (0..41u8).rev() {
            self.put_place(places[n as usize], window.get(n));
        }
    }

    /// Writes a window back at a live site: each live site there gets its atom.
    pub fn put_window(&mut self, x: u32, y: u32, window: &Window)
        requires live { IsLive self.old x y }
        ensures grid { self.new ≡ put_window self.old x y window.now }
        ensures plane { ArePlanesAlike self.old self.new }
    {
        match self.corner(x, y) {
            Some(low) => {
                let width = self.width as usize;
                put_inner(self.atoms.as_mut_slice(), low, width, window.atoms());
            }
            None => {
                let places = self.places(x, y);
                self.put_by_sites(&places, window);
            }
        }
    }

    /// The event at a live site. Its window is read and written site by site.
    #[tactic(auto, using(crate::proofs::Windows::centre_found))]
    fn event_by_sites<B: Behave>(
        &mut self,
        x: u32,
        y: u32,
        seed: u64,
        behave: &mut B,
        window: &mut Window,
    )
        requires live { IsLive self.old x y }
        ensures grid { self.new ≡ event (B.after behave.old) self.old x y seed }
        ensures plane { ArePlanesAlike self.old self.new }
        ensures meaning { B.after behave.new ≡ B.after behave.old }
    {
        let places = self.places(x, y);
        *window = self.window_by_sites(&places);
        behave.act(window, seed);
        self.put_by_sites(&places, window);
    }

    /// The event at a live site: the behaviour acts on the window there, and each live site of it
    /// gets the atom that the act left. If the centre is empty, nothing changes.
    pub fn event<B: Behave>(&mut self, x: u32, y: u32, seed: u64, behave: &mut B)
        requires live { IsLive self.old x y }
        ensures grid { self.new ≡ event (B.after behave.old) self.old x y seed }
        ensures plane { ArePlanesAlike self.old self.new }
        ensures meaning { B.after behave.new ≡ B.after behave.old }
    {
        if self.get(x, y) != Atom::new(0, 0) {
            self.event_in(x, y, seed, behave, &mut Window::empty());
        }
    }

    /// As `event`, with a window of the caller's to work in; its contents afterwards are not
    /// specified. Keep one to make many events.
    pub fn event_in<B: Behave>(
        &mut self,
        x: u32,
        y: u32,
        seed: u64,
        behave: &mut B,
        window: &mut Window,
    )
        requires live { IsLive self.old x y }
        ensures grid { self.new ≡ event (B.after behave.old) self.old x y seed }
        ensures plane { ArePlanesAlike self.old self.new }
        ensures meaning { B.after behave.new ≡ B.after behave.old }
    {
        if self.get(x, y) == Atom::new(0, 0) {
            return;
        }
        match self.corner(x, y) {
            Some(low) => {
                window.refill(self.atoms.as_slice(), low, self.width as usize);
                behave.act(window, seed);
                self.put_window(x, y, window);
            }
            None => self.event_by_sites(x, y, seed, behave, window),
        }
    }

    /// The events of the records, one after another. Each is at a live site.
    pub fn replay<B: Behave>(&mut self, records: &[Record], behave: &mut B)
        requires { All (λ r. IsLive self.old r.x r.y) records.now }
        ensures grid { self.new ≡ replay (B.after behave.old) self.old records.now }
        ensures plane { ArePlanesAlike self.old self.new }
        ensures meaning { B.after behave.new ≡ B.after behave.old }
    {
        let mut window = Window::empty();
        for entry in records {
            self.event_in(entry.x, entry.y, entry.seed, behave, &mut window);
        }
    }
}
