//! Acts on worked planes. The atoms were computed apart from these crates, from the published
//! description of the generator and what each act is to do.

ghost use Rattle.std.specs.Prelude.{◌≡◌, ◌≤◌, All};
ghost use Rattle.std.specs.List.Sorted.{IsNonDecreasingBy};
ghost use Rattle.cell_grid.specs.Grid.{ArePlanesAlike};
ghost use Rattle.plane_acts.specs.Acts.{IsActOn};

use bit_field::Atom;
use cell_grid::{Grid, Rectangle};
use plane_acts::{Act, BILLION, Chance, Every, Once, Schedule};
use std::alloc::Global;
use std::process::Abort;
use std::test::Fail;

/// The column, row, type and state of an atom.
type Placed = (u32, u32, u16, u128);

/// A plane of 8 by 8 sites that was filled with atoms of type 1, flipped twice and then erased, each
/// with chance one half, by the words of seed 7.
const TWICE_FLIPPED: [Placed; 34] = [
    (5, 0, 1, 0x2000000000000),
    (6, 0, 1, 0x0),
    (0, 1, 1, 0x88000000000000000),
    (2, 1, 1, 0x40000),
    (3, 1, 1, 0x0),
    (5, 1, 1, 0x0),
    (2, 2, 1, 0x0),
    (3, 2, 1, 0x4000),
    (4, 2, 1, 0x10000000000100000),
    (0, 3, 1, 0x0),
    (2, 3, 1, 0x40),
    (4, 3, 1, 0x0),
    (5, 3, 1, 0x0),
    (7, 3, 1, 0x0),
    (1, 4, 1, 0x2),
    (2, 4, 1, 0x8000000),
    (3, 4, 1, 0x0),
    (4, 4, 1, 0x80000000000),
    (6, 4, 1, 0x80000001000000),
    (7, 4, 1, 0x100400000000000),
    (0, 5, 1, 0x0),
    (2, 5, 1, 0x20000000000),
    (4, 5, 1, 0x0),
    (5, 5, 1, 0x0),
    (6, 5, 1, 0x0),
    (0, 6, 1, 0x0),
    (2, 6, 1, 0x40000000),
    (3, 6, 1, 0x0),
    (4, 6, 1, 0x10000000000),
    (6, 6, 1, 0x10000000004000000),
    (7, 6, 1, 0x0),
    (0, 7, 1, 0x0),
    (1, 7, 1, 0x40000000400000),
    (4, 7, 1, 0x0),
];

/// A second plane, of 24 by 16 sites, before the acts of leg 4. Columns 8 to 15 of rows 0 to 7 are not live.
const BEFORE: [Placed; 3] = [
    (7, 3, 1, 0x3),
    (16, 3, 2, 0x0),
    (9, 12, 1, 0x40000000000000000),
];

/// The same plane after them, by the words of seed 2^64 - 1.
const AFTER: [Placed; 5] = [
    (7, 3, 1, 0x8000000003),
    (16, 3, 2, 0x4000000000000),
    (6, 6, 1, 0x5),
    (7, 7, 1, 0x200000000000000005),
    (9, 12, 1, 0x40000000000000000),
];

/// Whether these are the atoms of a grid, and it has no others.
fn has(grid: &Grid, placed: &[Placed]) -> bool {
    let mut count = 0usize;
    for atom in grid.atoms() {
        if *atom != Atom::new(0, 0) && count < 1_000_000 {
            count += 1;
        }
    }
    for (x, y, kind, state) in placed {
        if *x >= grid.width() || *y >= grid.height() {
            return false;
        }
        let atom = grid.get(*x, *y);
        if atom.kind() != *kind || atom.state() != *state {
            return false;
        }
    }
    count == placed.len()
}

/// The area of some columns and rows.
fn area(left: u32, top: u32, right: u32, bottom: u32) -> Rectangle
    ensures { result ≡ record { left = left; top = top; right = right; bottom = bottom } }
{
    Rectangle {
        left,
        top,
        right,
        bottom,
    }
}

/// The acts on the first plane.
fn flips() -> [Once; 4]
    ensures areas { All (λ o. IsActOn 8 8 o.act) result }
    ensures ordered { IsNonDecreasingBy (λ o. o.leg) result }
{
    let all = area(0, 0, 8, 8);
    let half = Chance::of_billionths(500_000_000);
    [
        Once {
            leg: 1,
            act: Act::Put(all, Atom::new(1, 0)),
        },
        Once {
            leg: 1,
            act: Act::Flip(half, all),
        },
        Once {
            leg: 1,
            act: Act::Flip(half, all),
        },
        Once {
            leg: 1,
            act: Act::Erase(half, all),
        },
    ]
}

#[test]
fn the_acts_before_a_leg_take_their_words_from_one_stream(rt: HostRuntime) -> Result<(), Fail> {
    let once = Vec::from_slice(rt.alloc(), &flips())?;
    let schedule = Schedule::new(Vec::new(rt.alloc()), once);
    let mut grid = Grid::new(rt.alloc(), 8, 8)?;
    schedule.act_before(2, 7, &mut grid);
    assert!(rt; has(&grid, &[]));
    schedule.act_before(1, 7, &mut grid);
    assert!(rt; has(&grid, &TWICE_FLIPPED));
    Ok(())
}

/// Puts atoms at sites of a grid that are live.
fn plant(grid: &mut Grid, placed: &[Placed])
    ensures { ArePlanesAlike grid.old grid.new }
{
    for (x, y, kind, state) in placed {
        let (x, y) = (*x, *y);
        if x < grid.width() && y < grid.height() && *state < 1 << 71 && grid.is_live(x, y) {
            grid.set(x, y, Atom::new(*kind, *state));
        }
    }
}

/// The second plane before its acts.
fn half_live(rt: &impl Abort, alloc: Global) -> Grid
    ensures columns { result.width ≡ 24 }
    ensures rows { result.height ≡ 16 }
{
    let mut grid = Grid::new(alloc, 24, 16).expect(rt, "there is room for a grid");
    grid.shut(8, 0, 8, 8);
    plant(&mut grid, &BEFORE);
    grid
}

/// The acts on the second plane that are done again and again. The last is not due before leg 4.
fn again() -> [Every; 3]
    ensures areas { All (λ e. IsActOn 24 16 e.act) result }
    ensures periods { All (λ e. 1 ≤ e.period) result }
{
    let half = Chance::of_billionths(500_000_000);
    [
        Every {
            period: 2,
            act: Act::Flip(half, area(4, 2, 18, 5)),
        },
        Every {
            period: 1,
            act: Act::Put(area(6, 6, 12, 9), Atom::new(1, 5)),
        },
        Every {
            period: 3,
            act: Act::Clear(area(0, 0, 24, 16)),
        },
    ]
}

/// Those that are done once, four of them before leg 4.
fn once() -> [Once; 6]
    ensures areas { All (λ o. IsActOn 24 16 o.act) result }
    ensures ordered { IsNonDecreasingBy (λ o. o.leg) result }
{
    let all = area(0, 0, 24, 16);
    let sure = Chance::of_billionths(1_000_000_000);
    [
        Once {
            leg: 1,
            act: Act::Erase(sure, all),
        },
        Once {
            leg: 4,
            act: Act::Erase(Chance::of_billionths(500_000_000), area(5, 5, 17, 11)),
        },
        Once {
            leg: 4,
            act: Act::Flip(sure, area(7, 6, 11, 10)),
        },
        Once {
            leg: 4,
            act: Act::Attempts(9),
        },
        Once {
            leg: 4,
            act: Act::Clear(area(9, 8, 11, 9)),
        },
        Once {
            leg: 5,
            act: Act::Put(all, Atom::new(2, 1)),
        },
    ]
}

#[test]
fn what_is_not_live_takes_words_and_stays_empty(rt: HostRuntime) -> Result<(), Fail> {
    let every = Vec::from_slice(rt.alloc(), &again())?;
    let schedule = Schedule::new(every, Vec::from_slice(rt.alloc(), &once())?);
    assert!(rt; schedule.every().len() == 3 && schedule.once().len() == 6);
    assert!(rt; schedule.once_of(4).len() == 4 && schedule.once_of(3).is_empty());
    let mut grid = half_live(&rt, rt.alloc());
    schedule.act_before(4, u64::MAX, &mut grid);
    assert!(rt; has(&grid, &AFTER));
    Ok(())
}

#[test]
fn a_chance_has_its_billionths(rt: HostRuntime) {
    assert!(rt; Chance::of_billionths(100_000).billionths() == 100_000);
    assert!(rt; BILLION == 1_000_000_000);
}
