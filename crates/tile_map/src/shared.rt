//! The sites that an edge shares.

ghost use Rattle.std.specs.Prelude.{◌≡◌, ◌≤◌, map, IfOk};
ghost use Rattle.tile_map.specs.Tables.{shared_value, number_at, shared_both, IsWholeArea};
ghost use Rattle.tile_map.specs.Edges.{pairs_of};
ghost use Rattle.window_sites.specs.declared.window.TheConstants.{MOST_COLUMNS};

use crate::plane::Plane;
use crate::span::Area;
use feast_base::NoMemory;
use std::alloc::Global;
use std::marker::Model;

/// The live sites of the columns and rows that both ends of an edge reach. If tiles are off these
/// sites may form no rectangle, so each place of the columns and rows has the number of its site,
/// if that is live.
#[derive(Drop)]
pub(crate) struct SharedSites {
    area: Area,
    numbers: Vec<Option<u32>>,
    count: u32,
}

impl Model for SharedSites {
    ghost use Rattle.std.specs.Prelude.{◌≡◌, ◌≤◌, length};
    ghost use Rattle.tile_map.specs.Tables.{SharedValue, sites_in};
    ghost use Rattle.window_sites.specs.declared.window.TheConstants.{MOST_COLUMNS};

    ghost Value = { SharedValue };

    ghost view = { λ s. record { area = s.area; numbers = s.numbers.items; count = s.count } };

    ghost invariant = { λ s. (s.area.columns.end ≤ MOST_COLUMNS) × (s.area.rows.end ≤ MOST_COLUMNS) × (length s.numbers.items ≡ length (sites_in s.area)) };
}

impl SharedSites {
    /// The live sites of an area.
    pub(crate) fn new(alloc: Global, plane: &Plane, area: Area) -> Result<SharedSites, NoMemory>
        requires columns { area.columns.end ≤ MOST_COLUMNS }
        requires rows { area.rows.end ≤ MOST_COLUMNS }
        ensures { IfOk result (λ s. s ≡ shared_value plane.now area) }
    {
        let width = area.columns.len();
        let mut numbers = Vec::new(alloc);
        let mut count = 0;
        for place in 0..area.sites() {
            let x = area.columns.first + place % width;
            let y = area.rows.first + place / width;
            let live = plane.is_live(x, y);
            let number = if live { Some(count) } else { None };
            numbers.push(number)?;
            count += u32::from(live);
        }
        Ok(SharedSites {
            area,
            numbers,
            count,
        })
    }

    /// How many there are.
    pub(crate) fn count(&self) -> u32
        ensures { result ≡ self.now.count }
    {
        self.count
    }

    /// The area, if all its sites are live.
    pub(crate) fn whole_area(&self) -> Option<Area>
        ensures { IsWholeArea self.now result }
    {
        if self.count == self.area.sites() {
            Some(self.area)
        } else {
            None
        }
    }

    /// The number of a site, if it is one of them.
    pub(crate) fn number(&self, x: u32, y: u32) -> Option<u32>
        ensures { result ≡ number_at self.now x y }
    {
        let place = self.area.place_within(x, y)?;
        self.numbers[place as usize]
    }
}

/// The shared sites of each edge of a plane.
pub(crate) fn shared_sites(
    alloc: Global,
    plane: &Plane,
    ends: &[(u32, u32)],
) -> Result<Vec<SharedSites>, NoMemory>
    requires { ends.now ≡ pairs_of plane.now }
    ensures { IfOk result (λ v. v.items ≡ map (shared_both plane.now) (pairs_of plane.now)) }
{
    let mut shared = Vec::new(alloc);
    for pair in ends {
        let sites = SharedSites::new(alloc, plane, plane.common(pair.0, pair.1))?;
        shared.push(sites)?;
    }
    Ok(shared)
}
