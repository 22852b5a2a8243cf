//! The sites of a window in the news words of an edge, where each has a bit.
ghost use Rattle.std.specs.Prelude.{◌≡◌, ◌+◌, ◌-◌, ◌^◌, ◌==◌, ◌<◌, ◌≤◌, ℕ, length, IsTrue};
ghost use Rattle.std.specs.List.{list_all};
ghost use Rattle.tile_map.specs.Tables.{sites_in, IsSmall};
ghost use Rattle.border_cache.specs.Borders.{site_of};
ghost use Rattle.border_cache.specs.News.{nth_place, AreClearIn, IsPlace, AreMasks, SetsPlace, SetsRun};
ghost use Rattle.border_cache.specs.Windows.{place_at, SetsRow};
ghost use Rattle.border_cache.specs.Published.{IsWithMask};
ghost use Rattle.tile_map.specs.declared.limits.TheConstants.{MOST_SHARED};
ghost use Rattle.window_sites.specs.declared.window.TheConstants.{MOST_COLUMNS};

use crate::border::Centre;
use crate::row_runs::{rows_of, run_of};
use tile_map::Area;

/// Sets the bit of a place.
fn set_place(masks: &mut [u64], place: Option<u32>)
    requires count { length masks.old ≡ 9 }
    requires place { IsPlace MOST_SHARED place }
    ensures { SetsPlace place masks.old masks.new }
{
    if let Some(place) = place {
        masks[(place / 64) as usize] |= 1u64 << (place % 64);
    }
}

/// The bits of all these places. Two tiles share at most 576 sites, so an end has at most nine news
/// words.
pub(crate) fn masks(places: &[Option<u32>]) -> [u64; 9]
    requires places { (n : ℕ) → n < length places.now → IsPlace MOST_SHARED (nth_place places.now n) }
    ensures masks { AreMasks (nth_place places.now) (length places.now) result }
    ensures count { length result ≡ 9 }
{
    let mut masks = [0; 9];
    for n in 0..places.len() {
        set_place(&mut masks, places[n]);
    }
    masks
}

/// The lowest bits of a word, `count` of them.
fn ones(count: u32) -> u64
    requires { count < 64 }
    ensures { result ≡ 2 ^ count - 1 }
{
    (1u64 << count) - 1
}

/// Sets the bits of the places from `start` up to `end` and without it. So few lie in one word, or
/// in one and the next.
pub(crate) fn set_run(masks: &mut [u64], start: u32, end: u32)
    requires count { length masks.old ≡ 9 }
    requires some { start < end }
    requires short { end ≤ start + 9 }
    requires few { end ≤ MOST_SHARED }
    ensures { SetsRun start end masks.old masks.new }
{
    let bits = ones(end - start);
    let word = (start / 64) as usize;
    let low = start % 64;
    masks[word] |= bits << low;
    let over = low + (end - start) > 64;
    if over {
        masks[word + 1] |= bits >> (64 - low);
    }
}

/// Whether none of the bits of the places from `start` up to `end` and without it is set.
pub(crate) fn are_clear_in(words: &[u64], start: u32, end: u32) -> bool
    requires count { length words.now ≡ 9 }
    requires some { start < end }
    requires short { end ≤ start + 9 }
    requires few { end ≤ MOST_SHARED }
    ensures { IsTrue result → AreClearIn start end words.now }
{
    let bits = ones(end - start);
    let word = (start / 64) as usize;
    let low = start % 64;
    if words[word] & (bits << low) != 0 {
        return false;
    }
    if low + (end - start) <= 64 {
        return true;
    }
    words[word + 1] & (bits >> (64 - low)) == 0
}

/// Sets the bits of row `j` of the window at a site, by their places in an area. The sites of a row
/// that the area has are one run of places.
fn set_row(masks: &mut [u64], area: Area, centre: Centre, j: u32)
    requires count { length masks.old ≡ 9 }
    requires small { IsSmall area }
    requires few { length (sites_in area) ≤ MOST_SHARED }
    requires x { centre.x < MOST_COLUMNS }
    requires y { centre.y < MOST_COLUMNS }
    requires j { j < 9 }
    ensures { SetsRow area (site_of centre) j masks.old masks.new }
{
    if let Some(run) = run_of(area, centre, j) {
        set_run(masks, run.start, run.start + (run.east - run.west));
    }
}

/// The bits of the sites of the window at a site, by their places in an area.
pub(crate) fn masks_at(area: Area, centre: Centre) -> [u64; 9]
    requires small { IsSmall area }
    requires few { length (sites_in area) ≤ MOST_SHARED }
    requires x { centre.x < MOST_COLUMNS }
    requires y { centre.y < MOST_COLUMNS }
    ensures masks { AreMasks (place_at area (site_of centre)) 41 result }
    ensures count { length result ≡ 9 }
{
    let mut masks = [0; 9];
    let (first, end) = rows_of(area, centre);
    for j in first..end {
        set_row(&mut masks, area, centre, j);
    }
    masks
}

/// The word with the bits of a mask set or cleared.
pub(crate) fn with_mask(word: u64, mask: u64, bit: bool) -> u64
    ensures { IsWithMask word mask bit result }
{
    if bit { word | mask } else { word & !mask }
}

/// Whether no bit of these words is set.
pub(crate) fn are_clear(words: &[u64]) -> bool
    ensures { result ≡ list_all (λ w. w == 0) words.now }
{
    words.iter().all(|word| *word == 0)
}
