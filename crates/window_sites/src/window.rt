//! The part of the plane that an atom sees and can change.

ghost use Rattle.std.specs.Prelude.{◌≡◌, ◌≤◌, ◌<◌, ◌+◌, ◌*◌, ◌^◌, ℕ, length, replicate, true};
ghost use Rattle.bit_field.specs.Atom.{empty_atom};
ghost use Rattle.window_sites.specs.Inner.{inner_window};
ghost use Rattle.window_sites.specs.Window.{WindowValue, IsWindow, atom_at, live_at, put_at, swap_at};
ghost use Rattle.bit_field.specs.declared.TheConstants.{STATE_BITS};
ghost use Rattle.window_sites.specs.declared.window.TheConstants.{MOST_COLUMNS};

use crate::inner::read_inner;
use bit_field::Atom;
use std::marker::Model;

/// How many sites a window has.
const SITES: u8 = 41;

/// The most columns of a plane, and the most rows.
pub const MOST_COLUMNS: usize = 512;

/// The atoms of the 41 sites of a window, and which of the sites are live. A site that is not
/// live is empty. The centre is live.
#[derive(Clone, Copy, Debug, PartialEq, Eq)]
pub struct Window {
    atoms: [Atom; 41],
    live: [bool; 41],
}

impl Model for Window {
    ghost use Rattle.window_sites.specs.Window.{WindowValue, IsWindow};

    ghost Value = { WindowValue };

    ghost view = { λ w. record { atoms = w.atoms; live = w.live } };

    ghost invariant = { λ w. IsWindow (record { atoms = w.atoms; live = w.live }) };

    ghost inverse = { λ w. record { atoms = w.atoms; live = w.live } };
}

impl Window {
    /// A window with these atoms and live marks. A site that is not live must be empty, and the
    /// centre must be live.
    pub fn new(atoms: [Atom; 41], live: [bool; 41]) -> Window
        requires { IsWindow (record { atoms = atoms; live = live }) }
        ensures { result ≡ record { atoms = atoms; live = live } }
    {
        Window { atoms, live }
    }

    /// A window whose 41 sites are all live and empty.
    pub fn empty() -> Window
        ensures { result ≡ record { atoms = replicate 41 empty_atom; live = replicate 41 true } }
    {
        Window {
            atoms: [Atom::new(0, 0); 41],
            live: [true; 41],
        }
    }

    /// Turns this window into one that lies wholly inside a plane, with all 41 sites live. The
    /// plane holds its atoms row by row, `width` of them in a row and at most 512. The window's
    /// nine rows and nine columns start at index `low`.
    pub fn refill(&mut self, plane: &[Atom], low: usize, width: usize)
        requires small { width ≤ MOST_COLUMNS }
        requires whole { low + 8 * width + 8 < length plane.now }
        ensures { self.new ≡ inner_window plane.now low width }
    {
        read_inner(&mut self.atoms, plane, low, width);
        self.live = [true; 41];
    }

    /// The atoms of the 41 sites.
    pub fn atoms(&self) -> &[Atom; 41]
        ensures { result.now ≡ self.now.atoms }
    {
        &self.atoms
    }

    /// Reads the state of each atom. Only the proof of `laws` needs it.
    fn read_states(&self)
        requires { IsWindow self.now }
        ensures { (n : ℕ) → (atom_at self.now n).state < 2 ^ STATE_BITS }
    {
        for n in 0..SITES {
            // `state` says that it is below 2^71.
            let _state = self.get(n).state();
        }
    }

    /// States what is true of every window: it has 41 sites, a site that is not live is empty, the
    /// centre is live, and each state is below 2^71. It changes nothing.
    pub fn laws(&self)
        ensures window { IsWindow self.now }
        ensures states { (n : ℕ) → (atom_at self.now n).state < 2 ^ STATE_BITS }
    {
        // Reading a field makes known what holds of every window.
        let _atoms = &self.atoms;
        self.read_states();
    }

    /// The atom of site `n`, from 0 to 40.
    pub fn get(&self, n: u8) -> Atom
        requires { n ≤ 40 }
        ensures { result ≡ atom_at self.now n }
    {
        self.atoms[n as usize]
    }

    /// Whether site `n`, from 0 to 40, is live.
    pub fn is_live(&self, n: u8) -> bool
        requires { n ≤ 40 }
        ensures { result ≡ live_at self.now n }
    {
        self.live[n as usize]
    }

    /// Puts an atom at site `n`, from 0 to 40. Does nothing if the site is not live.
    pub fn put(&mut self, n: u8, atom: Atom)
        requires { n ≤ 40 }
        ensures { self.new ≡ put_at self.old n atom }
    {
        if self.is_live(n) {
            self.atoms[n as usize] = atom;
        }
    }

    /// Swaps the atoms of two sites, each from 0 to 40. Does nothing unless both are live.
    pub fn swap(&mut self, a: u8, b: u8)
        requires first { a ≤ 40 }
        requires second { b ≤ 40 }
        ensures { self.new ≡ swap_at self.old a b }
    {
        if self.is_live(a) && self.is_live(b) {
            self.atoms.swap(a as usize, b as usize);
        }
    }
}
