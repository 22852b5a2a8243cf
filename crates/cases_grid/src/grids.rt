//! Worked grids. The windows were computed apart from this crate, from the sorted offsets.

ghost use Rattle.std.specs.Prelude.{◌≡◌, ◌<◌};
ghost use Rattle.cell_grid.specs.Tried.{after_turn, idle-turn};

use bit_field::Atom;
use cell_grid::{Behave, Grid, Record};
use std::alloc::Global;
use std::process::Abort;
use window_sites::Window;

/// Stands for a site that is not live or not on the plane.
const OUT: u128 = 192;

/// The centres of some windows of the numbered grid, and the states of their 41 sites. The first
/// two are as far from the borders and from what is shut as a window needs.
const WINDOWS: [(u32, u32, [u128; 41]); 10] = [
    (
        5,
        5,
        [
            85, 84, 69, 101, 86, 83, 68, 100, 53, 117, 70, 102, 87, 82, 67, 99, 52, 116, 37, 133,
            54, 118, 71, 103, 88, 81, 66, 98, 51, 115, 36, 132, 21, 149, 38, 134, 55, 119, 72, 104,
            89,
        ],
    ),
    (
        11,
        7,
        [
            123, 122, 107, 139, 124, 121, 106, 138, 91, 155, 108, 140, 125, 120, 105, 137, 90, 154,
            75, 171, 92, 156, 109, 141, 126, 119, 104, 136, 89, 153, 74, 170, 59, 187, 76, 172, 93,
            157, 110, 142, 127,
        ],
    ),
    (
        4,
        4,
        [
            68, 67, 52, 84, 69, 66, 51, 83, 36, 100, 53, 85, 70, 65, 50, 82, 35, 99, 20, 116, 37,
            101, 54, 86, 71, 64, 49, 81, 34, 98, 19, 115, 4, 132, 21, 117, 38, 102, 55, 87, 72,
        ],
    ),
    (
        0,
        0,
        [
            0, OUT, OUT, 16, 1, OUT, OUT, OUT, OUT, 32, OUT, 17, 2, OUT, OUT, OUT, OUT, OUT, OUT,
            48, OUT, 33, OUT, 18, 3, OUT, OUT, OUT, OUT, OUT, OUT, OUT, OUT, 64, OUT, 49, OUT, 34,
            OUT, 19, 4,
        ],
    ),
    (
        15,
        0,
        [
            15, 14, OUT, 31, OUT, 13, OUT, 30, OUT, 47, OUT, OUT, OUT, 12, OUT, 29, OUT, 46, OUT,
            63, OUT, OUT, OUT, OUT, OUT, 11, OUT, 28, OUT, OUT, OUT, 62, OUT, 79, OUT, OUT, OUT,
            OUT, OUT, OUT, OUT,
        ],
    ),
    (
        0,
        11,
        [
            176, OUT, 160, OUT, 177, OUT, OUT, OUT, 144, OUT, 161, OUT, 178, OUT, OUT, OUT, OUT,
            OUT, 128, OUT, 145, OUT, 162, OUT, 179, OUT, OUT, OUT, OUT, OUT, OUT, OUT, 112, OUT,
            129, OUT, 146, OUT, 163, OUT, 180,
        ],
    ),
    (
        15,
        11,
        [
            191, 190, 175, OUT, OUT, 189, 174, OUT, 159, OUT, OUT, OUT, OUT, 188, 173, OUT, 158,
            OUT, 143, OUT, OUT, OUT, OUT, OUT, OUT, 187, 172, OUT, 157, OUT, 142, OUT, 127, OUT,
            OUT, OUT, OUT, OUT, OUT, OUT, OUT,
        ],
    ),
    (
        3,
        5,
        [
            83, 82, 67, 99, 84, 81, 66, 98, 51, 115, 68, 100, 85, 80, 65, 97, 50, 114, 35, 131, 52,
            116, 69, 101, 86, OUT, 64, 96, 49, 113, 34, 130, 19, 147, 36, 132, 53, 117, 70, 102,
            87,
        ],
    ),
    (
        9,
        4,
        [
            73, 72, 57, 89, 74, 71, 56, 88, 41, 105, 58, 90, 75, 70, 55, 87, 40, 104, 25, 121, 42,
            106, 59, 91, 76, 69, 54, 86, 39, 103, 24, 120, 9, 137, 26, 122, 43, 107, OUT, 92, 77,
        ],
    ),
    (
        14,
        3,
        [
            62, OUT, 46, 78, 63, OUT, OUT, 77, 30, 94, 47, 79, OUT, 59, OUT, 76, 29, 93, 14, 110,
            31, 95, OUT, OUT, OUT, 58, 43, 75, 28, 92, 13, 109, OUT, 126, 15, 111, OUT, OUT, OUT,
            OUT, OUT,
        ],
    ),
];

/// A grid of 16 columns and 12 rows, of which the two columns and two rows from (12, 2) on are not
/// live. The atom of each live site has the site's place as its state.
fn numbered(rt: &impl Abort, alloc: Global) -> Grid
    ensures columns { result.width ≡ 16 }
    ensures rows { result.height ≡ 12 }
{
    let mut grid = Grid::new(alloc, 16, 12).expect(rt, "there is room for a grid");
    grid.shut(12, 2, 2, 2);
    for place in 0..192 {
        let (x, y) = (place % 16, place / 16);
        if grid.is_live(x, y) {
            grid.set(x, y, Atom::new(1, u128::from(place)));
        }
    }
    grid
}

/// The states of a window's sites.
fn states(window: &Window) -> [u128; 41] {
    let mut states = [OUT; 41];
    for n in 0..41u8 {
        if window.is_live(n) {
            states[n as usize] = window.get(n).state();
        }
    }
    states
}

/// Whether the window at a live site shows these states, and a window shows them into which it is read.
fn is_shown(grid: &Grid, x: u32, y: u32, kept: &mut Window, shown: &[u128; 41]) -> bool
    requires columns { grid.now.width ≡ 16 }
    requires rows { grid.now.height ≡ 12 }
{
    if x >= 16 || y >= 12 || !grid.is_live(x, y) {
        return false;
    }
    grid.read_window(x, y, kept);
    states(kept) == *shown && states(&grid.window_at(x, y)) == *shown
}

#[test]
fn windows_show_the_live_sites_around_a_centre(rt: HostRuntime) {
    let grid = numbered(&rt, rt.alloc());
    let mut kept = Window::empty();
    for (x, y, shown) in &WINDOWS {
        assert!(rt; is_shown(&grid, *x, *y, &mut kept, shown), "({x}, {y})");
    }
}

/// Exchanges the centre and its eastern neighbour, unless the centre is empty.
#[derive(Clone, Copy)]
struct Turn;

impl Behave for Turn {
    ghost after = { λ s. after_turn };

    ghost idle = { λ s. idle-turn };

    fn act(&mut self, window: &mut Window, _seed: u64) {
        if window.get(0) != Atom::new(0, 0) {
            window.swap(0, 4);
        }
    }
}

/// The states of the sites from (5, 5) to (7, 5).
fn middle(grid: &Grid) -> [u128; 3]
    requires columns { grid.now.width ≡ 16 }
    requires rows { grid.now.height ≡ 12 }
{
    [
        grid.get(5, 5).state(),
        grid.get(6, 5).state(),
        grid.get(7, 5).state(),
    ]
}

/// A record of an event.
fn record(x: u32, y: u32) -> Record
    ensures column { result.x ≡ x }
    ensures row { result.y ≡ y }
{
    Record {
        stamp: 1,
        tile: 0,
        attempt: 0,
        x,
        y,
        seed: 0,
    }
}

#[test]
fn records_are_replayed_in_their_order(rt: HostRuntime) {
    let mut grid = numbered(&rt, rt.alloc());
    assert!(rt; grid.is_live(5, 5) && grid.is_live(6, 5) && grid.is_live(15, 0));
    assert!(rt; middle(&grid) == [85, 86, 87]);
    grid.replay(&[record(5, 5), record(6, 5), record(15, 0)], &mut Turn);
    assert!(rt; middle(&grid) == [86, 87, 85]);
    assert!(rt; grid.get(15, 0).state() == 15);
}

#[test]
fn a_row_has_the_atoms_of_its_columns(rt: HostRuntime) {
    let grid = numbered(&rt, rt.alloc());
    let row = grid.row(2);
    assert!(rt; row.len() == 16 && row[11].state() == 43);
    assert!(rt; row[12].state() == 0 && row[15].state() == 47);
}

/// Makes an event of `Turn` at a site, if it is live. Answers the states of the middle after it.
fn turned(grid: &mut Grid, x: u32, y: u32) -> [u128; 3]
    requires columns { grid.old.width ≡ 16 }
    requires rows { grid.old.height ≡ 12 }
    requires column { x < 16 }
    requires row { y < 12 }
    ensures columns { grid.new.width ≡ 16 }
    ensures rows { grid.new.height ≡ 12 }
{
    if grid.is_live(x, y) {
        grid.event(x, y, 0, &mut Turn);
    }
    middle(grid)
}

#[test]
fn an_event_changes_live_sites_alone(rt: HostRuntime) {
    let mut grid = numbered(&rt, rt.alloc());
    assert!(rt; turned(&mut grid, 5, 5) == [86, 85, 87]);
    assert!(rt; grid.is_live(11, 2) && turned(&mut grid, 11, 2) == [86, 85, 87]);
    assert!(rt; grid.get(11, 2).state() == 43 && grid.get(12, 2).state() == 0);
}

#[test]
fn an_event_at_an_empty_centre_changes_nothing(rt: HostRuntime) {
    let mut grid = numbered(&rt, rt.alloc());
    assert!(rt; turned(&mut grid, 5, 5) == [86, 85, 87]);
    assert!(rt; grid.is_live(5, 5));
    grid.set(5, 5, Atom::new(0, 0));
    assert!(rt; turned(&mut grid, 5, 5) == [0, 85, 87]);
}

/// Stamps and tiles of two records, and whether the first precedes the second.
const PAIRS: [((u32, u32), (u32, u32), bool); 4] = [
    ((1, 5), (2, 0), true),
    ((2, 0), (2, 1), true),
    ((2, 1), (2, 1), false),
    ((2, 0), (1, 5), false),
];

/// A record with a stamp and a tile.
fn of_tile((stamp, tile): (u32, u32)) -> Record {
    Record {
        stamp,
        tile,
        attempt: 0,
        x: 0,
        y: 0,
        seed: 0,
    }
}

#[test]
fn a_journal_goes_by_stamp_and_then_by_tile(rt: HostRuntime) {
    for (one, other, precedes) in PAIRS {
        assert!(rt; of_tile(one).precedes(&of_tile(other)) == precedes);
    }
}
