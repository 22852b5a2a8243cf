//! One act.

ghost use Rattle.std.specs.Prelude.{◌≡◌, ℕ, ◌+◌, ◌%◌, ◌<◌, ◌≤◌, ◌&&◌, true, if◌then◌else◌};
ghost use Rattle.bit_field.specs.Atom.{empty_atom};
ghost use Rattle.bit_field.specs.declared.TheConstants.{STATE_BITS};
ghost use Rattle.draw_stream.specs.Words.{tile_state, tile_word};
ghost use Rattle.cell_grid.specs.Grid.{ArePlanesAlike};
ghost use Rattle.cell_grid.specs.Shut.{is_inside};
ghost use Rattle.plane_acts.specs.Acts.{IsActOn, after_act, area_of, atom_after, is_occupant, sites_before, with_bit_changed, words_drawn, words_per_site};
ghost use Rattle.plane_acts.specs.Steps.{Start, IsUpTo, sites_above};

use crate::chance::Chance;
use crate::words::ActWords;
use bit_field::{Atom, STATE_BITS};
use cell_grid::{Grid, Rectangle};

/// What changes a plane between two legs. An area has at least one column and one row, and lies in
/// the plane. A site that is not live stays empty, whatever is done to the area that it is in.
#[derive(Clone, Copy)]
pub enum Act {
    /// Each site of the area becomes empty.
    Clear(Rectangle),
    /// Each live site of the area gets the atom.
    Put(Rectangle, Atom),
    /// Each site of the area becomes empty with this chance. It takes one word for each site, live
    /// or not, row by row.
    Erase(Chance, Rectangle),
    /// Each atom of the area has one of its state's bits changed with this chance. It takes two
    /// words for each site, live or not, hit or not, row by row: the first says whether the site is
    /// hit, and the second, modulo 71, which bit.
    Flip(Chance, Rectangle),
    /// The leg makes this many attempts a tile. The plane stays as it is.
    Attempts(u32),
}

impl Act {
    /// The area of the act. That of `Attempts` has no site.
    fn area(&self) -> Rectangle
        ensures { result ≡ area_of self.now }
    {
        match self {
            Act::Clear(area) | Act::Put(area, _) => *area,
            Act::Erase(_, area) | Act::Flip(_, area) => *area,
            Act::Attempts(_) => Rectangle {
                left: 0,
                top: 0,
                right: 0,
                bottom: 0,
            },
        }
    }

    /// The atom that the act leaves at a live site of its area that has this atom. It draws the
    /// words of one site.
    fn atom_after(&self, atom: Atom, words: &mut ActWords) -> Atom
        ensures atom { (seed n : ℕ) → words.old ≡ tile_state seed n → result ≡ atom_after self.now (tile_word seed n) (tile_word seed (n + 1)) atom }
        ensures words { (seed n : ℕ) → words.old ≡ tile_state seed n → words.new ≡ tile_state seed (n + words_per_site self.now) }
    {
        match self {
            Act::Clear(_) => Atom::new(0, 0),
            Act::Put(_, placed) => *placed,
            Act::Erase(chance, _) => erased(atom, chance.is_hit(words.word())),
            Act::Flip(chance, _) => {
                let hit = chance.is_hit(words.word());
                flipped(atom, hit, words.word())
            }
            Act::Attempts(_) => atom,
        }
    }

    /// Does the act at one site of its area, which draws its words, be it live or not.
    fn act_at(&self, x: u32, y: u32, words: &mut ActWords, grid: &mut Grid)
        requires column { x < grid.old.width }
        requires row { y < grid.old.height }
        requires inside { is_inside (area_of self.now) x y ≡ true }
        ensures step { let k = sites_before (area_of self.now) x y in
            (s : Start) → IsUpTo self.now s k words.old grid.old → IsUpTo self.now s (k + 1) words.new grid.new }
        ensures plane { ArePlanesAlike grid.old grid.new }
    {
        let atom = self.atom_after(grid.get(x, y), words);
        if grid.is_live(x, y) {
            grid.set(x, y, atom);
        }
    }

    /// Does the act in one row of its area.
    fn act_in_row(&self, y: u32, words: &mut ActWords, grid: &mut Grid)
        requires area { IsActOn grid.old.width grid.old.height self.now }
        requires top { (area_of self.now).top ≤ y }
        requires bottom { y < (area_of self.now).bottom }
        ensures step { let above = sites_above (area_of self.now) in
            (s : Start) → IsUpTo self.now s (above y) words.old grid.old → IsUpTo self.now s (above (y + 1)) words.new grid.new }
        ensures plane { ArePlanesAlike grid.old grid.new }
    {
        let area = self.area();
        for x in area.left..area.right {
            self.act_at(x, y, words, grid);
        }
    }

    /// Does the act, with the next words of the stream.
    pub(crate) fn act_on(&self, words: &mut ActWords, grid: &mut Grid)
        requires { IsActOn grid.old.width grid.old.height self.now }
        ensures grid { (seed n : ℕ) → words.old ≡ tile_state seed n → grid.new ≡ after_act seed n self.now grid.old }
        ensures words { (seed n : ℕ) → words.old ≡ tile_state seed n → words.new ≡ tile_state seed (n + words_drawn self.now) }
        ensures plane { ArePlanesAlike grid.old grid.new }
    {
        let area = self.area();
        for y in area.top..area.bottom {
            self.act_in_row(y, words, grid);
        }
    }
}

/// The empty atom if the site is hit, and otherwise the atom that is there.
fn erased(atom: Atom, hit: bool) -> Atom
    ensures { result ≡ (if hit then empty_atom else atom) }
{
    if hit { Atom::new(0, 0) } else { atom }
}

/// The atom with one bit of its state changed, which a word tells, if the site is hit and the atom
/// is not empty, and otherwise the atom.
fn flipped(atom: Atom, hit: bool, word: u64) -> Atom
    ensures { result ≡ (if (hit && is_occupant atom) then with_bit_changed atom (word % STATE_BITS) else atom) }
{
    if hit && atom != Atom::new(0, 0) {
        let bit = (word % u64::from(STATE_BITS)) as u32;
        let mut changed = atom;
        changed.set(bit, 1, 1 - atom.get(bit, 1));
        changed
    } else {
        atom
    }
}
