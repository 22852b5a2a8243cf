//! Windows: the numbers of their sites, what may change, and the rows of a plane.

use bit_field::Atom;
use window_sites::{Window, number, offset};

/// Sites and their offsets.
const SITES: [(u8, (i32, i32)); 12] = [
    (0, (0, 0)),
    (1, (-1, 0)),
    (4, (1, 0)),
    (5, (-2, 0)),
    (12, (2, 0)),
    (18, (0, -3)),
    (19, (0, 3)),
    (25, (-4, 0)),
    (32, (0, -4)),
    (33, (0, 4)),
    (36, (2, -2)),
    (40, (4, 0)),
];

#[test]
fn sites_have_their_numbers(rt: HostRuntime) {
    for (n, place) in SITES {
        assert!(rt; n < 41 && offset(n) == place, "site {n}");
        assert!(rt; number(place.0, place.1) == Some(n), "site {n}");
    }
}

/// Places outside the window.
const OUTSIDE: [(i32, i32); 5] = [(5, 0), (0, -5), (1, 4), (-3, 2), (i32::MIN, i32::MIN)];

#[test]
fn places_outside_the_window_have_no_number(rt: HostRuntime) {
    for place in OUTSIDE {
        assert!(rt; number(place.0, place.1).is_none(), "{place:?}");
    }
}

/// An empty window in which all sites but 1 are live.
fn without_site_1() -> Window {
    let empty = Atom::new(0, 0);
    let mut live = [true; 41];
    live[1] = false;
    Window::new([empty; 41], live)
}

/// The same, in which `red` is at the centre and `blue` at site 40.
fn red_and_blue(red: Atom, blue: Atom) -> Window {
    let mut window = without_site_1();
    window.put(0, red);
    window.put(40, blue);
    window
}

#[test]
fn a_site_that_is_not_live_does_not_change(rt: HostRuntime) {
    let red = Atom::new(1, 5);
    let mut window = red_and_blue(red, Atom::new(2, 6));
    let before = window;
    window.put(1, red);
    window.swap(0, 1);
    window.swap(1, 0);
    assert!(rt; window == before);
    assert!(rt; window.is_live(0) && !window.is_live(1));
}

/// The same after `red` was put at site 1, which is not live, and the centre was exchanged with that
/// site, both ways, and then with site 40.
fn exchanged(red: Atom, blue: Atom) -> Window {
    let mut window = red_and_blue(red, blue);
    window.put(1, red);
    window.swap(0, 1);
    window.swap(1, 0);
    window.swap(0, 40);
    window
}

#[test]
fn live_sites_are_exchanged(rt: HostRuntime) {
    let (empty, red, blue) = (Atom::new(0, 0), Atom::new(1, 5), Atom::new(2, 6));
    let window = exchanged(red, blue);
    assert!(rt; window.get(0) == blue && window.get(40) == red);
    assert!(rt; window.get(3) == empty && window.get(1) == empty);
    assert!(rt; window.is_live(0) && !window.is_live(1));
}

/// The places of the 41 sites in rows of 12, if the first row and column begin at place 5: computed
/// apart from this crate, from the sorted offsets.
const PLACES: [u8; 41] = [
    57, 56, 45, 69, 58, 55, 44, 68, 33, 81, 46, 70, 59, 54, 43, 67, 32, 80, 21, 93, 34, 82, 47, 71,
    60, 53, 42, 66, 31, 79, 20, 92, 9, 105, 22, 94, 35, 83, 48, 72, 61,
];

/// The first 110 places of a plane, each with its number as the state of its atom.
fn plane() -> [Atom; 110] {
    let mut plane = [Atom::new(0, 0); 110];
    for place in 0..110u8 {
        plane[place as usize] = Atom::new(1, u128::from(place));
    }
    plane
}

#[test]
fn a_window_is_read_from_the_rows_of_a_plane(rt: HostRuntime) {
    let mut window = without_site_1();
    window.refill(&plane(), 5, 12);
    for n in 0..41u8 {
        let atom = Atom::new(1, u128::from(PLACES[n as usize]));
        assert!(rt; window.get(n) == atom && window.is_live(n), "site {n}");
        assert!(rt; window.atoms()[n as usize] == atom, "site {n}");
    }
}

#[test]
fn a_window_is_empty_at_first(rt: HostRuntime) {
    assert!(rt; Window::empty().get(0) == Atom::new(0, 0));
}
