//! The numbers of the sites of a window, row by row.
ghost use Rattle.std.specs.Prelude.{◌+◌, ◌≤◌};
ghost use Rattle.tile_map.specs.Plane.{apart};
ghost use Rattle.border_cache.specs.Reached.{IsNumbered};

/// The numbers of the sites among nine rows and nine columns, row by row from the north. Where the
/// window has no site, there is a 0. This is a `static` because a constant would be copied at each
/// call.
#[rattlefmt::skip]
static NUMBERS: [u8; 81] = [
    0, 0, 0, 0, 32, 0, 0, 0, 0,
    0, 0, 0, 30, 18, 34, 0, 0, 0,
    0, 0, 28, 16, 8, 20, 36, 0, 0,
    0, 26, 14, 6, 2, 10, 22, 38, 0,
    25, 13, 5, 1, 0, 4, 12, 24, 40,
    0, 27, 15, 7, 3, 11, 23, 39, 0,
    0, 0, 29, 17, 9, 21, 37, 0, 0,
    0, 0, 0, 31, 19, 35, 0, 0, 0,
    0, 0, 0, 0, 33, 0, 0, 0, 0,
];

/// The number of the site in a row and a column of a window, which are counted from the north and
/// from the west.
#[inline]
pub(crate) fn number_at(row: u32, column: u32) -> u8
    requires { apart 4 row + apart 4 column ≤ 4 }
    ensures { IsNumbered row column result }
{
    NUMBERS[(9 * row + column) as usize]
}
