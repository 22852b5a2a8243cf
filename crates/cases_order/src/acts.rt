//! What acts in the worked runs.
ghost use Rattle.std.specs.Prelude.{◌≡◌, ◌≤◌};
ghost use Rattle.cell_grid.specs.Tried.{after_turn, idle-turn};
ghost use Rattle.cases_order.specs.Acts.{after_round, counted, idle-round, next_site};

use bit_field::Atom;
use cell_grid::Behave;
use window_sites::Window;

/// Exchanges the centre and its eastern neighbour, unless the centre is empty.
#[derive(Clone, Copy, Drop)]
pub struct Walker;

impl Behave for Walker {
    ghost after = { λ s. after_turn };

    ghost idle = { λ s. idle-turn };

    fn act(&mut self, window: &mut Window, _seed: u64) {
        if window.get(0) != Atom::new(0, 0) {
            window.swap(0, 4);
        }
    }
}

/// Counts the events of the centre in its state, up to three, and then exchanges the centre with a
/// neighbour, by how many there were before: east, south, west, north. An empty centre stays.
#[derive(Clone, Copy, Drop)]
pub struct Turner;

/// An atom with one event more.
fn counted(atom: Atom) -> Atom
    ensures { result ≡ counted atom }
{
    let state = atom.state();
    if state < 3 {
        Atom::new(atom.kind(), state + 1)
    } else {
        atom
    }
}

/// The number of the site to which an atom goes after this many events.
fn next_site(events: u128) -> u8
    ensures value { result ≡ next_site events }
    ensures bound { result ≤ 40 }
{
    match events {
        0 => 4,
        1 => 3,
        2 => 1,
        _ => 2,
    }
}

impl Behave for Turner {
    ghost after = { λ s. after_round };

    ghost idle = { λ s. idle-round };

    fn act(&mut self, window: &mut Window, _seed: u64) {
        let atom = window.get(0);
        if atom != Atom::new(0, 0) {
            window.put(0, counted(atom));
            window.swap(0, next_site(atom.state()));
        }
    }
}
