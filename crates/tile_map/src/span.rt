//! Intervals of columns or rows, and rectangles.

ghost use Rattle.std.specs.Prelude.{◌≡◌, ◌+◌, ◌-◌, ◌*◌, ◌<◌, ◌≤◌, ◌≤ℤ◌, pos, min, max, ◌&&◌, nat_le, nat_lt, IfSome};
ghost use Rattle.window_sites.specs.Sites.{shift};
ghost use Rattle.tile_map.specs.Spans.{interior_low, interior_high, gap, is_within, place_within};
ghost use Rattle.tile_map.specs.Zones.{zone_of, place_of};
ghost use Rattle.tile_map.specs.declared.limits.TheConstants.{MOST_ACROSS, MOST_SIDE};
ghost use Rattle.tile_map.specs.declared.span.TheConstants.{ZONES_ACROSS};
ghost use Rattle.window_sites.specs.declared.window.TheConstants.{MOST_COLUMNS};

/// The zones of a row, and those of a column, of a tile: its first eight places, its last eight, and
/// one for all between.
pub(crate) const ZONES_ACROSS: u32 = 17;

/// The zones of a tile.
pub(crate) const ZONES: u32 = 289;

const _: () = prove!(ZONES == ZONES_ACROSS * ZONES_ACROSS);

/// The coordinates from `first` up to `end` and without it.
#[derive(Clone, Copy)]
pub struct Span {
    /// The first.
    pub first: u32,
    /// One more than the last.
    pub end: u32,
}

impl Span {
    /// A line is cut into `parts` parts of equal size: what lies in one of them, or at most 4 beside
    /// it.
    pub(crate) fn around(part: u32, size: u32, parts: u32) -> Span
        requires one { part < parts }
        requires few { parts ≤ MOST_ACROSS }
        requires small { size ≤ MOST_SIDE }
        ensures first { result.first ≡ part * size - 4 }
        ensures end { result.end ≡ min ((part + 1) * size + 4) (parts * size) }
        ensures bound { result.end ≤ MOST_COLUMNS }
    {
        let first = (part * size).saturating_sub(4);
        let end = ((part + 1) * size + 4).min(parts * size);
        Span { first, end }
    }

    /// A line is cut into `parts` parts of equal size: what lies in one of them, with 8 or more
    /// places of it between it and each border beyond which another part follows.
    pub(crate) fn interior(part: u32, size: u32, parts: u32) -> Span
        requires one { part < parts }
        requires few { parts ≤ MOST_ACROSS }
        requires small { size ≤ MOST_SIDE }
        ensures first { result.first ≡ interior_low size part }
        ensures end { result.end ≡ interior_high parts size part }
    {
        let first = if part == 0 { 0 } else { part * size + 8 };
        let end = if part + 1 == parts {
            parts * size
        } else {
            ((part + 1) * size).saturating_sub(8)
        };
        Span { first, end }
    }

    /// A line is cut into parts of equal size: one of them.
    pub(crate) fn part(part: u32, size: u32) -> Span
        requires few { part < MOST_ACROSS }
        requires small { size ≤ MOST_SIDE }
        ensures first { result.first ≡ part * size }
        ensures end { result.end ≡ (part + 1) * size }
    {
        Span {
            first: part * size,
            end: (part + 1) * size,
        }
    }

    /// What lies in both.
    pub(crate) fn common(self, other: Span) -> Span
        ensures first { result.first ≡ max self.first other.first }
        ensures end { result.end ≡ min self.end other.end }
    {
        Span {
            first: self.first.max(other.first),
            end: self.end.min(other.end),
        }
    }

    /// How many there are.
    pub(crate) fn len(self) -> u32
        ensures { result ≡ self.end - self.first }
    {
        self.end.saturating_sub(self.first)
    }

    /// Whether a coordinate is one of the span.
    pub(crate) fn contains(self, at: u32) -> bool
        ensures { result ≡ (nat_le self.first at && nat_lt at self.end) }
    {
        self.first <= at && at < self.end
    }

    /// The zone of one of the span's places: each of the first eight and of the last eight places is
    /// one, and all between are one.
    pub(crate) fn zone(self, at: u32) -> u32
        requires first { self.first ≤ at }
        requires end { at < self.end }
        ensures value { result ≡ zone_of self.first self.end at }
        ensures few { result < ZONES_ACROSS }
    {
        let before = at - self.first;
        if before < 8 {
            before
        } else {
            16 - (self.end - 1 - at).min(8)
        }
    }

    /// A place of a zone of the span, or any place where it has none of the zone.
    pub(crate) fn place_in(self, zone: u32) -> u32
        requires wide { self.first + 8 ≤ self.end }
        requires zone { zone < ZONES_ACROSS }
        ensures value { result ≡ place_of self.first self.end zone }
        ensures end { result < self.end }
    {
        if zone <= 8 {
            self.first + zone.min(self.end - 1 - self.first)
        } else {
            self.end - 1 - (16 - zone)
        }
    }

    /// How far a coordinate is from the nearest of the span.
    pub(crate) fn gap(self, at: u32) -> u32
        requires at { at < MOST_COLUMNS }
        requires first { self.first < MOST_COLUMNS }
        ensures value { result ≡ (self.first - at) + (at + 1 - self.end) }
        ensures bound { result ≤ 1024 }
    {
        self.first.saturating_sub(at) + (at + 1).saturating_sub(self.end)
    }
}

/// The sites of some columns and rows.
#[derive(Clone, Copy)]
pub struct Area {
    /// The columns.
    pub columns: Span,
    /// The rows.
    pub rows: Span,
}

/// The areas that are kept of a tile: its rectangle, the interior of that, and what it reaches.
#[derive(Clone, Copy)]
pub(crate) struct TileAreas {
    pub own: Area,
    pub interior: Area,
    pub reach: Area,
}

impl Area {
    /// How many sites there are.
    pub(crate) fn sites(self) -> u32
        requires columns { self.columns.end ≤ MOST_COLUMNS }
        requires rows { self.rows.end ≤ MOST_COLUMNS }
        ensures value { result ≡ (self.columns.end - self.columns.first) * (self.rows.end - self.rows.first) }
        ensures bound { result ≤ MOST_COLUMNS * MOST_COLUMNS }
    {
        self.columns.len() * self.rows.len()
    }

    /// Whether a site is one of the area.
    pub(crate) fn contains(self, x: u32, y: u32) -> bool
        ensures { result ≡ is_within self.columns.first self.columns.end self.rows.first self.rows.end x y }
    {
        self.columns.contains(x) && self.rows.contains(y)
    }

    /// How far a site is from the nearest of the area.
    pub(crate) fn distance(self, x: u32, y: u32) -> u32
        requires x { x < MOST_COLUMNS }
        requires y { y < MOST_COLUMNS }
        requires columns { self.columns.first < MOST_COLUMNS }
        requires rows { self.rows.first < MOST_COLUMNS }
        ensures { result ≡ gap self.columns.first self.columns.end x + gap self.rows.first self.rows.end y }
    {
        self.columns.gap(x) + self.rows.gap(y)
    }

    /// The place of a site, row by row, if the area has it.
    pub fn place_within(self, x: u32, y: u32) -> Option<u32>
        requires columns { self.columns.end ≤ MOST_COLUMNS }
        requires rows { self.rows.end ≤ MOST_COLUMNS }
        ensures value { result ≡ place_within self.columns.first self.columns.end self.rows.first self.rows.end x y }
        ensures bound { IfSome result (λ k. k < MOST_COLUMNS * MOST_COLUMNS) }
    {
        if !self.columns.contains(x) || !self.rows.contains(y) {
            return None;
        }
        Some((y - self.rows.first) * self.columns.len() + (x - self.columns.first))
    }
}

/// The coordinate plus an offset, unless it falls below 0.
pub(crate) fn shift(x: u32, by: i32) -> Option<u32>
    requires small { x < MOST_COLUMNS }
    requires near { by ≤ℤ pos 4 }
    ensures { result ≡ shift x by }
{
    if by >= 0 {
        Some(x + by as u32)
    } else {
        let back = by.unsigned_abs();
        if back <= x { Some(x - back) } else { None }
    }
}
