//! Reading a window that lies wholly inside the plane, all 41 sites at once.
//!
//! The plane holds its atoms row by row, `width` of them in a row. The window's nine rows and nine
//! columns start at index `low`. Each site has a line of its own: a loop over a table takes three
//! times as long.

ghost use Rattle.std.specs.Prelude.{◌≡◌, ◌<◌, ◌≤◌, ◌+◌, ◌*◌, length};
ghost use Rattle.window_sites.specs.Inner.{inner_atoms, with_sites_read};
ghost use Rattle.window_sites.specs.declared.window.TheConstants.{MOST_COLUMNS};

use bit_field::Atom;

/// Reads sites 33 to 40, the eastern half of the sites at distance 4.
#[inline]
fn read_sites_33_to_40(into: &mut [Atom; 41], plane: &[Atom], low: usize, width: usize)
    requires small { width ≤ MOST_COLUMNS }
    requires whole { low + 8 * width + 8 < length plane.now }
    ensures { into.new ≡ with_sites_read into.old plane.now low width 33 8 }
{
    into[40] = plane[low + 4 * width + 8];
    into[39] = plane[low + 5 * width + 7];
    into[38] = plane[low + 3 * width + 7];
    into[37] = plane[low + 6 * width + 6];
    into[36] = plane[low + 2 * width + 6];
    into[35] = plane[low + 7 * width + 5];
    into[34] = plane[low + 1 * width + 5];
    into[33] = plane[low + 8 * width + 4];
}

/// Reads sites 25 to 32, the western half of the sites at distance 4.
#[inline]
fn read_sites_25_to_32(into: &mut [Atom; 41], plane: &[Atom], low: usize, width: usize)
    requires small { width ≤ MOST_COLUMNS }
    requires whole { low + 8 * width + 8 < length plane.now }
    ensures { into.new ≡ with_sites_read into.old plane.now low width 25 8 }
{
    into[32] = plane[low + 0 * width + 4];
    into[31] = plane[low + 7 * width + 3];
    into[30] = plane[low + 1 * width + 3];
    into[29] = plane[low + 6 * width + 2];
    into[28] = plane[low + 2 * width + 2];
    into[27] = plane[low + 5 * width + 1];
    into[26] = plane[low + 3 * width + 1];
    into[25] = plane[low + 4 * width + 0];
}

/// Reads sites 19 to 24, the eastern half of the sites at distance 3.
#[inline]
fn read_sites_19_to_24(into: &mut [Atom; 41], plane: &[Atom], low: usize, width: usize)
    requires small { width ≤ MOST_COLUMNS }
    requires whole { low + 8 * width + 8 < length plane.now }
    ensures { into.new ≡ with_sites_read into.old plane.now low width 19 6 }
{
    into[24] = plane[low + 4 * width + 7];
    into[23] = plane[low + 5 * width + 6];
    into[22] = plane[low + 3 * width + 6];
    into[21] = plane[low + 6 * width + 5];
    into[20] = plane[low + 2 * width + 5];
    into[19] = plane[low + 7 * width + 4];
}

/// Reads sites 13 to 18, the western half of the sites at distance 3.
#[inline]
fn read_sites_13_to_18(into: &mut [Atom; 41], plane: &[Atom], low: usize, width: usize)
    requires small { width ≤ MOST_COLUMNS }
    requires whole { low + 8 * width + 8 < length plane.now }
    ensures { into.new ≡ with_sites_read into.old plane.now low width 13 6 }
{
    into[18] = plane[low + 1 * width + 4];
    into[17] = plane[low + 6 * width + 3];
    into[16] = plane[low + 2 * width + 3];
    into[15] = plane[low + 5 * width + 2];
    into[14] = plane[low + 3 * width + 2];
    into[13] = plane[low + 4 * width + 1];
}

/// Reads sites 5 to 12, the sites at distance 2.
#[inline]
fn read_sites_5_to_12(into: &mut [Atom; 41], plane: &[Atom], low: usize, width: usize)
    requires small { width ≤ MOST_COLUMNS }
    requires whole { low + 8 * width + 8 < length plane.now }
    ensures { into.new ≡ with_sites_read into.old plane.now low width 5 8 }
{
    into[12] = plane[low + 4 * width + 6];
    into[11] = plane[low + 5 * width + 5];
    into[10] = plane[low + 3 * width + 5];
    into[9] = plane[low + 6 * width + 4];
    into[8] = plane[low + 2 * width + 4];
    into[7] = plane[low + 5 * width + 3];
    into[6] = plane[low + 3 * width + 3];
    into[5] = plane[low + 4 * width + 2];
}

/// Reads sites 0 to 4, the centre and the sites at distance 1.
#[inline]
fn read_sites_0_to_4(into: &mut [Atom; 41], plane: &[Atom], low: usize, width: usize)
    requires small { width ≤ MOST_COLUMNS }
    requires whole { low + 8 * width + 8 < length plane.now }
    ensures { into.new ≡ with_sites_read into.old plane.now low width 0 5 }
{
    into[4] = plane[low + 4 * width + 5];
    into[3] = plane[low + 5 * width + 4];
    into[2] = plane[low + 3 * width + 4];
    into[1] = plane[low + 4 * width + 3];
    into[0] = plane[low + 4 * width + 4];
}

/// Reads the atoms of all 41 sites.
#[inline]
pub(crate) fn read_inner(into: &mut [Atom; 41], plane: &[Atom], low: usize, width: usize)
    requires long { length into.old ≡ 41 }
    requires small { width ≤ MOST_COLUMNS }
    requires whole { low + 8 * width + 8 < length plane.now }
    ensures { into.new ≡ inner_atoms plane.now low width }
{
    read_sites_33_to_40(into, plane, low, width);
    read_sites_25_to_32(into, plane, low, width);
    read_sites_19_to_24(into, plane, low, width);
    read_sites_13_to_18(into, plane, low, width);
    read_sites_5_to_12(into, plane, low, width);
    read_sites_0_to_4(into, plane, low, width);
}
