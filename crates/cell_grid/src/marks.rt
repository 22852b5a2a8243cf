//! The marks of a plane: one for each site, in row order.
ghost use Rattle.std.specs.Prelude.{◌≡◌, ◌≤◌, ◌*◌, length};
ghost use Rattle.cell_grid.specs.Shut.{marks_outside, is_inside, widen};
ghost use Rattle.window_sites.specs.declared.window.TheConstants.{MOST_COLUMNS};

/// A rectangle of columns from `left` to below `right` and rows from `top` to below `bottom`.
/// Contracts of `Grid::shut` speak of it.
#[derive(Clone, Copy)]
pub struct Rectangle {
    /// The first column.
    pub left: u32,
    /// The first row.
    pub top: u32,
    /// One more than the last column.
    pub right: u32,
    /// One more than the last row.
    pub bottom: u32,
}

impl Rectangle {
    /// The rectangle with 4 more columns and rows on each side, as far as there are some. One with
    /// no site stays as it is.
    pub(crate) fn widen(self) -> Rectangle
        requires right { self.right ≤ MOST_COLUMNS }
        requires bottom { self.bottom ≤ MOST_COLUMNS }
        ensures { result ≡ widen self }
    {
        if self.left >= self.right || self.top >= self.bottom {
            return self;
        }
        Rectangle {
            left: self.left.saturating_sub(4),
            top: self.top.saturating_sub(4),
            right: self.right + 4,
            bottom: self.bottom + 4,
        }
    }

    /// Whether a site lies inside the rectangle.
    fn is_inside(&self, u: u32, v: u32) -> bool
        ensures { result ≡ is_inside self.now u v }
    {
        self.left <= u && u < self.right && self.top <= v && v < self.bottom
    }
}

/// Clears the marks inside a rectangle of a plane with `width` columns.
pub(crate) fn clear(marks: &mut [bool], width: u32, area: Rectangle)
    requires some { 1 ≤ width }
    requires short { length marks.old ≤ MOST_COLUMNS * MOST_COLUMNS }
    ensures { marks.new ≡ marks_outside marks.old width area }
{
    for i in 0..marks.len() {
        let place = i as u32;
        if area.is_inside(place % width, place / width) {
            marks[i] = false;
        }
    }
}
