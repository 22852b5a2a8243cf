//! Writing a window that lies wholly inside the plane, all 41 sites at once.
//!
//! The plane holds its atoms row by row, `width` of them in a row. The window's nine rows and nine
//! columns start at index `low`. Each site has a line of its own: a loop over a table takes three
//! times as long.

ghost use Rattle.std.specs.Prelude.{◌≡◌, ◌+◌, ◌*◌, ◌≤◌, ◌<◌, length};
ghost use Rattle.cell_grid.specs.Inner.{with_inner, with_sites_put};
ghost use Rattle.window_sites.specs.declared.window.TheConstants.{MOST_COLUMNS};

use bit_field::Atom;

/// Writes sites 33 to 40, the eastern half of the sites at distance 4.
#[inline]
fn put_sites_33_to_40(atoms: &mut [Atom], low: usize, width: usize, from: &[Atom; 41])
    requires small { width ≤ MOST_COLUMNS }
    requires whole { low + 8 * width + 8 < length atoms.old }
    ensures { atoms.new ≡ with_sites_put atoms.old low width from.now 33 8 }
{
    atoms[low + 4 * width + 8] = from[40];
    atoms[low + 5 * width + 7] = from[39];
    atoms[low + 3 * width + 7] = from[38];
    atoms[low + 6 * width + 6] = from[37];
    atoms[low + 2 * width + 6] = from[36];
    atoms[low + 7 * width + 5] = from[35];
    atoms[low + 1 * width + 5] = from[34];
    atoms[low + 8 * width + 4] = from[33];
}

/// Writes sites 25 to 32, the western half of the sites at distance 4.
#[inline]
fn put_sites_25_to_32(atoms: &mut [Atom], low: usize, width: usize, from: &[Atom; 41])
    requires small { width ≤ MOST_COLUMNS }
    requires whole { low + 8 * width + 8 < length atoms.old }
    ensures { atoms.new ≡ with_sites_put atoms.old low width from.now 25 8 }
{
    atoms[low + 0 * width + 4] = from[32];
    atoms[low + 7 * width + 3] = from[31];
    atoms[low + 1 * width + 3] = from[30];
    atoms[low + 6 * width + 2] = from[29];
    atoms[low + 2 * width + 2] = from[28];
    atoms[low + 5 * width + 1] = from[27];
    atoms[low + 3 * width + 1] = from[26];
    atoms[low + 4 * width + 0] = from[25];
}

/// Writes sites 19 to 24, the eastern half of the sites at distance 3.
#[inline]
fn put_sites_19_to_24(atoms: &mut [Atom], low: usize, width: usize, from: &[Atom; 41])
    requires small { width ≤ MOST_COLUMNS }
    requires whole { low + 8 * width + 8 < length atoms.old }
    ensures { atoms.new ≡ with_sites_put atoms.old low width from.now 19 6 }
{
    atoms[low + 4 * width + 7] = from[24];
    atoms[low + 5 * width + 6] = from[23];
    atoms[low + 3 * width + 6] = from[22];
    atoms[low + 6 * width + 5] = from[21];
    atoms[low + 2 * width + 5] = from[20];
    atoms[low + 7 * width + 4] = from[19];
}

/// Writes sites 13 to 18, the western half of the sites at distance 3.
#[inline]
fn put_sites_13_to_18(atoms: &mut [Atom], low: usize, width: usize, from: &[Atom; 41])
    requires small { width ≤ MOST_COLUMNS }
    requires whole { low + 8 * width + 8 < length atoms.old }
    ensures { atoms.new ≡ with_sites_put atoms.old low width from.now 13 6 }
{
    atoms[low + 1 * width + 4] = from[18];
    atoms[low + 6 * width + 3] = from[17];
    atoms[low + 2 * width + 3] = from[16];
    atoms[low + 5 * width + 2] = from[15];
    atoms[low + 3 * width + 2] = from[14];
    atoms[low + 4 * width + 1] = from[13];
}

/// Writes sites 5 to 12, the sites at distance 2.
#[inline]
fn put_sites_5_to_12(atoms: &mut [Atom], low: usize, width: usize, from: &[Atom; 41])
    requires small { width ≤ MOST_COLUMNS }
    requires whole { low + 8 * width + 8 < length atoms.old }
    ensures { atoms.new ≡ with_sites_put atoms.old low width from.now 5 8 }
{
    atoms[low + 4 * width + 6] = from[12];
    atoms[low + 5 * width + 5] = from[11];
    atoms[low + 3 * width + 5] = from[10];
    atoms[low + 6 * width + 4] = from[9];
    atoms[low + 2 * width + 4] = from[8];
    atoms[low + 5 * width + 3] = from[7];
    atoms[low + 3 * width + 3] = from[6];
    atoms[low + 4 * width + 2] = from[5];
}

/// Writes sites 0 to 4, the centre and the sites at distance 1.
#[inline]
fn put_sites_0_to_4(atoms: &mut [Atom], low: usize, width: usize, from: &[Atom; 41])
    requires small { width ≤ MOST_COLUMNS }
    requires whole { low + 8 * width + 8 < length atoms.old }
    ensures { atoms.new ≡ with_sites_put atoms.old low width from.now 0 5 }
{
    atoms[low + 4 * width + 5] = from[4];
    atoms[low + 5 * width + 4] = from[3];
    atoms[low + 3 * width + 4] = from[2];
    atoms[low + 4 * width + 3] = from[1];
    atoms[low + 4 * width + 4] = from[0];
}

/// Writes the atoms of all 41 sites of a window that lies wholly inside a plane. The plane holds its
/// atoms row by row, `width` of them in a row and at most 512. The window's nine rows and nine
/// columns start at index `low`.
#[inline]
pub fn put_inner(atoms: &mut [Atom], low: usize, width: usize, from: &[Atom; 41])
    requires small { width ≤ MOST_COLUMNS }
    requires whole { low + 8 * width + 8 < length atoms.old }
    ensures { atoms.new ≡ with_inner atoms.old low width from.now }
{
    put_sites_33_to_40(atoms, low, width, from);
    put_sites_25_to_32(atoms, low, width, from);
    put_sites_19_to_24(atoms, low, width, from);
    put_sites_13_to_18(atoms, low, width, from);
    put_sites_5_to_12(atoms, low, width, from);
    put_sites_0_to_4(atoms, low, width, from);
}
