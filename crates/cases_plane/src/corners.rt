//! Planes of nine tiles some corners of which are off, computed site by site.

use crate::facts::Fact::{Needs, Shared};
use crate::planes::{Plane, assert_facts};
use feast_base::NoMemory;

/// Each set of corners. Events of tile 4 at (8, 8) and at (15, 11), and of tile 1 at (8, 6), are those whose
/// edges change with it.
const CORNERS: [Plane; 16] = [
    Plane {
        about: "no corner is off",
        tiles: (3, 3),
        sides: (8, 8),
        off: &[
            false, false, false, false, false, false, false, false, false,
        ],
        facts: &[
            Shared(&[
                96, 96, 64, 96, 64, 128, 64, 64, 96, 128, 96, 64, 128, 64, 128, 64, 64, 96, 96, 96,
            ]),
            Needs(4, 8, 8, &[2, 5, 7, 9, 12, 13, 14]),
            Needs(4, 15, 11, &[2, 5, 7, 9, 12, 14, 15]),
            Needs(1, 8, 6, &[0, 3, 4, 5, 6]),
        ],
    },
    Plane {
        about: "corner 0 is off",
        tiles: (3, 3),
        sides: (8, 8),
        off: &[true, false, false, false, false, false, false, false, false],
        facts: &[
            Shared(&[
                0, 0, 0, 96, 48, 112, 64, 64, 96, 112, 96, 64, 128, 64, 128, 64, 64, 96, 96, 96,
            ]),
            Needs(4, 8, 8, &[2, 4, 6, 9, 10, 11]),
            Needs(4, 15, 11, &[2, 4, 6, 9, 11, 12]),
            Needs(1, 8, 6, &[0, 1, 2, 3]),
        ],
    },
    Plane {
        about: "corner 2 is off",
        tiles: (3, 3),
        sides: (8, 8),
        off: &[false, false, true, false, false, false, false, false, false],
        facts: &[
            Shared(&[
                96, 96, 64, 0, 64, 112, 48, 0, 0, 128, 96, 64, 112, 64, 128, 64, 64, 96, 96, 96,
            ]),
            Needs(4, 8, 8, &[2, 4, 6, 9, 10, 11]),
            Needs(4, 15, 11, &[2, 4, 6, 9, 11, 12]),
            Needs(1, 8, 6, &[0, 3, 4, 5]),
        ],
    },
    Plane {
        about: "corners 0 and 2 are off",
        tiles: (3, 3),
        sides: (8, 8),
        off: &[true, false, true, false, false, false, false, false, false],
        facts: &[
            Shared(&[
                0, 0, 0, 0, 48, 96, 48, 0, 0, 112, 96, 64, 112, 64, 128, 64, 64, 96, 96, 96,
            ]),
            Needs(4, 8, 8, &[1, 3, 6, 7, 8]),
            Needs(4, 15, 11, &[1, 3, 6, 8, 9]),
            Needs(1, 8, 6, &[0, 1, 2]),
        ],
    },
    Plane {
        about: "corner 6 is off",
        tiles: (3, 3),
        sides: (8, 8),
        off: &[false, false, false, false, false, false, true, false, false],
        facts: &[
            Shared(&[
                96, 96, 64, 96, 64, 128, 64, 64, 96, 112, 0, 48, 128, 0, 112, 64, 64, 96, 0, 96,
            ]),
            Needs(4, 8, 8, &[2, 5, 7, 9, 11, 12]),
            Needs(4, 15, 11, &[2, 5, 7, 9, 11, 12, 13]),
            Needs(1, 8, 6, &[0, 3, 4, 5, 6]),
        ],
    },
    Plane {
        about: "corners 0 and 6 are off",
        tiles: (3, 3),
        sides: (8, 8),
        off: &[true, false, false, false, false, false, true, false, false],
        facts: &[
            Shared(&[
                0, 0, 0, 96, 48, 112, 64, 64, 96, 96, 0, 48, 128, 0, 112, 64, 64, 96, 0, 96,
            ]),
            Needs(4, 8, 8, &[2, 4, 6, 8, 9]),
            Needs(4, 15, 11, &[2, 4, 6, 8, 9, 10]),
            Needs(1, 8, 6, &[0, 1, 2, 3]),
        ],
    },
    Plane {
        about: "corners 2 and 6 are off",
        tiles: (3, 3),
        sides: (8, 8),
        off: &[false, false, true, false, false, false, true, false, false],
        facts: &[
            Shared(&[
                96, 96, 64, 0, 64, 112, 48, 0, 0, 112, 0, 48, 112, 0, 112, 64, 64, 96, 0, 96,
            ]),
            Needs(4, 8, 8, &[2, 4, 6, 8, 9]),
            Needs(4, 15, 11, &[2, 4, 6, 8, 9, 10]),
            Needs(1, 8, 6, &[0, 3, 4, 5]),
        ],
    },
    Plane {
        about: "corners 0, 2 and 6 are off",
        tiles: (3, 3),
        sides: (8, 8),
        off: &[true, false, true, false, false, false, true, false, false],
        facts: &[
            Shared(&[
                0, 0, 0, 0, 48, 96, 48, 0, 0, 96, 0, 48, 112, 0, 112, 64, 64, 96, 0, 96,
            ]),
            Needs(4, 8, 8, &[1, 3, 5, 6]),
            Needs(4, 15, 11, &[1, 3, 5, 6, 7]),
            Needs(1, 8, 6, &[0, 1, 2]),
        ],
    },
    Plane {
        about: "corner 8 is off",
        tiles: (3, 3),
        sides: (8, 8),
        off: &[false, false, false, false, false, false, false, false, true],
        facts: &[
            Shared(&[
                96, 96, 64, 96, 64, 128, 64, 64, 96, 128, 96, 64, 112, 64, 112, 0, 48, 0, 96, 0,
            ]),
            Needs(4, 8, 8, &[2, 5, 7, 9, 12, 13, 14]),
            Needs(4, 15, 11, &[2, 5, 7, 9, 12, 14]),
            Needs(1, 8, 6, &[0, 3, 4, 5, 6]),
        ],
    },
    Plane {
        about: "corners 0 and 8 are off",
        tiles: (3, 3),
        sides: (8, 8),
        off: &[true, false, false, false, false, false, false, false, true],
        facts: &[
            Shared(&[
                0, 0, 0, 96, 48, 112, 64, 64, 96, 112, 96, 64, 112, 64, 112, 0, 48, 0, 96, 0,
            ]),
            Needs(4, 8, 8, &[2, 4, 6, 9, 10, 11]),
            Needs(4, 15, 11, &[2, 4, 6, 9, 11]),
            Needs(1, 8, 6, &[0, 1, 2, 3]),
        ],
    },
    Plane {
        about: "corners 2 and 8 are off",
        tiles: (3, 3),
        sides: (8, 8),
        off: &[false, false, true, false, false, false, false, false, true],
        facts: &[
            Shared(&[
                96, 96, 64, 0, 64, 112, 48, 0, 0, 128, 96, 64, 96, 64, 112, 0, 48, 0, 96, 0,
            ]),
            Needs(4, 8, 8, &[2, 4, 6, 9, 10, 11]),
            Needs(4, 15, 11, &[2, 4, 6, 9, 11]),
            Needs(1, 8, 6, &[0, 3, 4, 5]),
        ],
    },
    Plane {
        about: "corners 0, 2 and 8 are off",
        tiles: (3, 3),
        sides: (8, 8),
        off: &[true, false, true, false, false, false, false, false, true],
        facts: &[
            Shared(&[
                0, 0, 0, 0, 48, 96, 48, 0, 0, 112, 96, 64, 96, 64, 112, 0, 48, 0, 96, 0,
            ]),
            Needs(4, 8, 8, &[1, 3, 6, 7, 8]),
            Needs(4, 15, 11, &[1, 3, 6, 8]),
            Needs(1, 8, 6, &[0, 1, 2]),
        ],
    },
    Plane {
        about: "corners 6 and 8 are off",
        tiles: (3, 3),
        sides: (8, 8),
        off: &[false, false, false, false, false, false, true, false, true],
        facts: &[
            Shared(&[
                96, 96, 64, 96, 64, 128, 64, 64, 96, 112, 0, 48, 112, 0, 96, 0, 48, 0, 0, 0,
            ]),
            Needs(4, 8, 8, &[2, 5, 7, 9, 11, 12]),
            Needs(4, 15, 11, &[2, 5, 7, 9, 11, 12]),
            Needs(1, 8, 6, &[0, 3, 4, 5, 6]),
        ],
    },
    Plane {
        about: "corners 0, 6 and 8 are off",
        tiles: (3, 3),
        sides: (8, 8),
        off: &[true, false, false, false, false, false, true, false, true],
        facts: &[
            Shared(&[
                0, 0, 0, 96, 48, 112, 64, 64, 96, 96, 0, 48, 112, 0, 96, 0, 48, 0, 0, 0,
            ]),
            Needs(4, 8, 8, &[2, 4, 6, 8, 9]),
            Needs(4, 15, 11, &[2, 4, 6, 8, 9]),
            Needs(1, 8, 6, &[0, 1, 2, 3]),
        ],
    },
    Plane {
        about: "corners 2, 6 and 8 are off",
        tiles: (3, 3),
        sides: (8, 8),
        off: &[false, false, true, false, false, false, true, false, true],
        facts: &[
            Shared(&[
                96, 96, 64, 0, 64, 112, 48, 0, 0, 112, 0, 48, 96, 0, 96, 0, 48, 0, 0, 0,
            ]),
            Needs(4, 8, 8, &[2, 4, 6, 8, 9]),
            Needs(4, 15, 11, &[2, 4, 6, 8, 9]),
            Needs(1, 8, 6, &[0, 3, 4, 5]),
        ],
    },
    Plane {
        about: "corners 0, 2, 6 and 8 are off",
        tiles: (3, 3),
        sides: (8, 8),
        off: &[true, false, true, false, false, false, true, false, true],
        facts: &[
            Shared(&[
                0, 0, 0, 0, 48, 96, 48, 0, 0, 96, 0, 48, 96, 0, 96, 0, 48, 0, 0, 0,
            ]),
            Needs(4, 8, 8, &[1, 3, 5, 6]),
            Needs(4, 15, 11, &[1, 3, 5, 6]),
            Needs(1, 8, 6, &[0, 1, 2]),
        ],
    },
];

#[test]
fn corners_that_are_off_take_their_strips_along(rt: HostRuntime) -> Result<(), NoMemory> {
    assert_facts(&rt, rt.alloc(), &CORNERS)
}
