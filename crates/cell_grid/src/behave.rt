//! Behaviours: what acts on a window.
ghost use Rattle.std.specs.Prelude.{◌≡◌, ℕ};
ghost use Rattle.bit_field.specs.Atom.{empty_atom};
ghost use Rattle.window_sites.specs.Window.{WindowValue, atom_at};

use window_sites::Window;

/// A behaviour acts on a window. Its meaning, `after`, is the window that an act leaves, given the
/// window and a seed. A window with an empty centre stays as it is, whatever the seed (`idle`).
pub trait Behave {
    ghost after: { Self → WindowValue → ℕ → WindowValue };

    /// Turns the window into the one that the meaning gives. The same sites stay live, and the
    /// meaning stays the same.
    fn act(&mut self, window: &mut Window, seed: u64)
        ensures window { window.new ≡ after self.old window.old seed }
        ensures live { window.new.live ≡ window.old.live }
        ensures meaning { after self.new ≡ after self.old };

    ghost idle: { (s : Self) (w : WindowValue) (seed : ℕ) → atom_at w 0 ≡ empty_atom → after s w seed ≡ w };
}
