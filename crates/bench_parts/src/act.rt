//! The behaviour in this bench.
ghost use Rattle.cell_grid.specs.Tried.{after_turn, idle-turn};

use bit_field::Atom;
use cell_grid::Behave;
use window_sites::Window;

/// Swaps the centre and its eastern neighbour, unless the centre is empty.
#[derive(Clone, Copy)]
pub struct Turn;

impl Behave for Turn {
    ghost after = { λ s. after_turn };

    ghost idle = { λ s. idle-turn };

    #[inline(never)]
    fn act(&mut self, window: &mut Window, _seed: u64) {
        if window.get(0) != Atom::new(0, 0) {
            window.swap(0, 4);
        }
    }
}
