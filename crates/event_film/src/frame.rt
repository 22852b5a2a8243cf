//! What is stored of an event, beside the words of its atoms.
ghost use Rattle.std.specs.Prelude.{◌≡◌, IsTrue};
ghost use Rattle.event_film.specs.Packed.{HasMarksOf, frame_of};

use crate::marks::{Marks, with_mark_below};
use feast_base::MOST_ATTEMPTS;
use std::mem::size_of;
use window_sites::Window;

/// An event that was made: its centre, and which sites of the window were live before it, and which
/// had an atom whose low word, or high word, isn't 0.
#[derive(Drop)]
pub(crate) struct Frame {
    /// The column of the centre.
    pub x: u32,
    /// The row of the centre.
    pub y: u32,
    /// The live sites of the window.
    pub live: Marks,
    /// The sites of the window whose low word is stored: it isn't 0.
    pub lows: Marks,
    /// The sites of the window whose high word is stored: it isn't 0.
    pub highs: Marks,
}

impl Frame {
    /// The frame of an event with this centre, and this window before it.
    pub(crate) fn of(x: u32, y: u32, window: &Window) -> Frame
        ensures { result ≡ frame_of x y window.now }
    {
        window.laws();
        let mut live = 0u64;
        let mut lows = 0u64;
        let mut highs = 0u64;
        for n in (0..41u8).rev() {
            let (low, high) = window.get(n).to_words();
            lows = with_mark_below(lows, low != 0);
            highs = with_mark_below(highs, high != 0);
            live = with_mark_below(live, window.is_live(n));
        }
        Frame {
            x,
            y,
            live: Marks::from_bits(live),
            lows: Marks::from_bits(lows),
            highs: Marks::from_bits(highs),
        }
    }

    /// Whether the marks of another frame are the same.
    pub(crate) fn has_marks_of(&self, other: &Frame) -> bool
        ensures { IsTrue result → HasMarksOf self.now other.now }
    {
        self.live.is(&other.live) && self.lows.is(&other.lows) && self.highs.is(&other.highs)
    }
}

/// A million events take less than 700,000,000 bytes, even if no word of their windows is 0.
const _: () = prove!(
    (size_of::<Frame>() + 41 * (size_of::<u64>() + size_of::<u32>())) * MOST_ATTEMPTS < 700_000_000
);
