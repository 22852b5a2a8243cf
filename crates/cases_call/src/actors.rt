//! Events at the centres that elements have, and at centres of no element.

use bit_field::Atom;
use cell_grid::Behave;
use element_set::ElementSet;
use feast_base::Source;
use std::alloc::Global;
use std::process::Abort;
use std::test::Fail;
use window_sites::Window;

const STILL: &str = "element Still { Void behave() { } }";

/// An element that swaps itself with its eastern neighbour.
const WALKER: &str = "element Walker { EventWindow ew; Void behave() { ew.swap(0, 4); } }";

/// The same as a code file.
const CODE: &[u8] =
    b"FEASTC\x01\0\0\x01\0\0\0\x06Walker\0\0\0\x01\0\0\0\x06behave\0\0\0\0\0\0\0\0\0\0\0\x04\0\0\0\0\0\0\0\0\0\0\0\0\0\0\0\0\0\0\0\x04\x0c0";

/// The types at the centre and at its eastern neighbour after an event that began with these two.
fn acted<A: Behave>(actor: &mut A, centre: u16, east: u16) -> (u16, u16) {
    let mut window = Window::empty();
    window.put(0, Atom::new(centre, 0));
    window.put(4, Atom::new(east, 0));
    actor.act(&mut window, 0);
    (window.get(0).kind(), window.get(4).kind())
}

/// The elements of two files, the first of which stays.
fn built(alloc: Global) -> Result<ElementSet, Fail> {
    let still = Source::new(alloc, "a", Vec::from_slice(alloc, STILL.as_bytes())?)?;
    let walker = Source::new(alloc, "b", Vec::from_slice(alloc, WALKER.as_bytes())?)?;
    match ElementSet::build(alloc, &[still, walker]) {
        Ok(set) => Ok(set),
        Err(_) => Err(Fail::from("refused")),
    }
}

/// That events at these types at the centre and at its eastern neighbour leave these types there.
fn assert_acts<A: Behave>(rt: &impl Abort, actor: &mut A, rows: &[(u16, u16, (u16, u16))]) {
    for (centre, east, wanted) in rows {
        assert!(rt; acted(actor, *centre, *east) == *wanted, "{centre} {east}");
    }
}

const OF_TWO_ELEMENTS: [(u16, u16, (u16, u16)); 5] = [
    (2, 0, (0, 2)),
    (2, 1, (1, 2)),
    (1, 2, (1, 2)),
    (0, 2, (0, 2)),
    (3, 2, (3, 2)),
];

#[test]
fn the_element_at_the_centre_acts(rt: HostRuntime) -> Result<(), Fail> {
    let set = built(rt.alloc())?;
    assert_acts(&rt, &mut set.actor(rt.alloc())?, &OF_TWO_ELEMENTS);
    Ok(())
}

const OF_ONE_ELEMENT: [(u16, u16, (u16, u16)); 3] = [
    (1, 0, (0, 1)),
    (0, 1, (0, 1)),
    (2, 1, (2, 1)),
];

#[test]
fn the_code_of_the_centre_acts(rt: HostRuntime) -> Result<(), Fail> {
    let Ok(set) = code_file::read(rt.alloc(), CODE) else {
        return Err(Fail::from("the file was refused"));
    };
    assert_acts(&rt, &mut set.actor(rt.alloc())?, &OF_ONE_ELEMENT);
    Ok(())
}
