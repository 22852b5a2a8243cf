//! The sites of a tile that no other tile holds.
ghost use Rattle.std.specs.Prelude.{◌≡◌, ◌==◌, ◌+◌, ◌-◌, ◌≤◌, ◌<◌, if◌then◌else◌};
ghost use Rattle.tile_map.specs.Plane.{tiles_of};
ghost use Rattle.tile_map.specs.Spans.{is_within};
ghost use Rattle.serial_order.specs.Outcomes.{IsUnshared};
ghost use Rattle.window_sites.specs.declared.window.TheConstants.{MOST_COLUMNS};

use tile_map::Map;

/// A tile, and the columns and rows of its rectangle that no other tile holds: `left` and `top` are
/// the first, `right` and `bottom` one more than the last.
#[derive(Clone, Copy)]
pub(crate) struct Unshared {
    pub(crate) tile: u32,
    pub(crate) left: u32,
    pub(crate) right: u32,
    pub(crate) top: u32,
    pub(crate) bottom: u32,
}

/// Of the places of a line of some length that a tile reaches, those that no other tile reaches. At
/// each border with a neighbour both reach 4 places on either side.
fn unshared_places(first: u32, end: u32, length: u32) -> (u32, u32)
    requires small { first ≤ MOST_COLUMNS }
    requires some { 8 ≤ end }
    ensures from { result.0 ≡ (if first == 0 then 0 else first + 8) }
    ensures to { result.1 ≡ (if end == length then end else end - 8) }
{
    let from = if first == 0 { 0 } else { first + 8 };
    let to = if end == length { end } else { end - 8 };
    (from, to)
}

impl Unshared {
    /// The sites of a tile that no other tile holds.
    pub(crate) fn of(map: &Map, tile: u32) -> Unshared
        requires { tile < tiles_of map.now }
        ensures unshared { IsUnshared map.now result }
        ensures tile { result.tile ≡ tile }
    {
        let (first, end) = map.columns(tile);
        let (left, right) = unshared_places(first, end, map.width());
        let (first, end) = map.rows(tile);
        let (top, bottom) = unshared_places(first, end, map.height());
        Unshared {
            tile,
            left,
            right,
            top,
            bottom,
        }
    }

    /// Whether a site lies in these columns and rows.
    pub(crate) fn has(&self, x: u32, y: u32) -> bool
        ensures { result ≡ is_within self.now.left self.now.right self.now.top self.now.bottom x y }
    {
        self.left <= x && x < self.right && self.top <= y && y < self.bottom
    }
}
