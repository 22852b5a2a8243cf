//! The words of the atoms of windows, without those that are 0.
ghost use Rattle.std.specs.Prelude.{◌≡◌, ◌≤◌, ◌+◌, ◌-◌, ◌++◌, [], All, IfOk, IsTrue, MatchOption, drop, length, map, take};
ghost use Rattle.std.specs.Vec.{vec_len, vec_capacity};
ghost use Rattle.bit_field.specs.Atom.{LeavesGap};
ghost use Rattle.event_film.specs.Marks.{is_nonzero, marked, unpacked};
ghost use Rattle.event_film.specs.Packed.{EndWith, frame_of, high_words, joined, last_window, low_words, packed, without_last};

use crate::frame::Frame;
use crate::marks::Marks;
use bit_field::Atom;
use feast_base::NoMemory;
use std::alloc::Global;
use std::marker::Model;
use window_sites::Window;

/// The words of the atoms of some windows, those of the first window first. Contracts see the low and
/// the high words, and how many of each there is room for.
#[derive(Drop)]
pub(crate) struct Words {
    lows: Vec<u64>,
    highs: Vec<u32>,
}

impl Model for Words {
    ghost use Rattle.std.specs.Prelude.{All, ◌≡◌};
    ghost use Rattle.std.specs.Vec.{vec_capacity};
    ghost use Rattle.bit_field.specs.Atom.{LeavesGap};
    ghost use Rattle.event_film.specs.Packed.{WordsValue};

    ghost Value = { WordsValue };

    ghost view = { λ w. record { lows = w.lows.items; highs = w.highs.items; most = vec_capacity w.lows } };

    ghost invariant = { λ w. (vec_capacity w.highs ≡ vec_capacity w.lows) × All LeavesGap w.highs.items };
}

/// Puts the low words of the marked sites of a window on others: of those that aren't 0.
fn push_lows(lows: &mut Vec<u64>, marks: &Marks, window: &Window)
    requires room { vec_len lows.old + 41 ≤ vec_capacity lows.old }
    requires marks { marks.now ≡ map is_nonzero (low_words window.now) }
    ensures lows { lows.new.items ≡ lows.old.items ++ packed (low_words window.now) }
    ensures capacity { vec_capacity lows.new ≡ vec_capacity lows.old }
{
    window.laws();
    let mut sites = marks.sites();
    while let Some(n) = sites.next() {
        lows.push_reserved(window.get(n).to_words().0);
    }
}

/// Puts the high words of the marked sites of a window on others: of those that aren't 0.
fn push_highs(highs: &mut Vec<u32>, marks: &Marks, window: &Window)
    requires room { vec_len highs.old + 41 ≤ vec_capacity highs.old }
    requires marks { marks.now ≡ map is_nonzero (high_words window.now) }
    ensures highs { highs.new.items ≡ highs.old.items ++ packed (high_words window.now) }
    ensures capacity { vec_capacity highs.new ≡ vec_capacity highs.old }
{
    window.laws();
    let mut sites = marks.sites();
    while let Some(n) = sites.next() {
        highs.push_reserved(window.get(n).to_words().1);
    }
}

/// Whether these are the low words of the marked sites of a window: those that aren't 0. True only if
/// they are.
fn are_lows(lows: &[u64], marks: &Marks, window: &Window) -> bool
    requires marks { marks.now ≡ map is_nonzero (low_words window.now) }
    requires count { length lows.now ≡ marked marks.now }
    ensures { IsTrue result → lows.now ≡ packed (low_words window.now) }
{
    window.laws();
    let mut at = 0;
    let mut sites = marks.sites();
    while let Some(n) = sites.next() {
        if lows[at] != window.get(n).to_words().0 {
            return false;
        }
        at += 1;
    }
    true
}

/// Whether these are the high words of the marked sites of a window: those that aren't 0. True only if
/// they are.
fn are_highs(highs: &[u32], marks: &Marks, window: &Window) -> bool
    requires marks { marks.now ≡ map is_nonzero (high_words window.now) }
    requires count { length highs.now ≡ marked marks.now }
    ensures { IsTrue result → highs.now ≡ packed (high_words window.now) }
{
    window.laws();
    let mut at = 0;
    let mut sites = marks.sites();
    while let Some(n) = sites.next() {
        if highs[at] != window.get(n).to_words().1 {
            return false;
        }
        at += 1;
    }
    true
}

/// Takes the last items off, those of the marked sites; the items of all sites, the others blank.
fn take_items<T: Copy>(items: &mut Vec<T>, marks: &Marks, blank: T) -> [T; 41]
    requires { marked marks.now ≤ vec_len items.old }
    ensures row { result ≡ unpacked blank marks.now (drop (vec_len items.old - marked marks.now) items.old.items) }
    ensures rest { items.new.items ≡ take (vec_len items.old - marked marks.now) items.old.items }
    ensures capacity { vec_capacity items.new ≡ vec_capacity items.old }
{
    let mut row = [blank; 41];
    let start = items.len() - marks.count();
    let mut at = start;
    let mut sites = marks.sites();
    while let Some(n) = sites.next() {
        row[n as usize] = items[at];
        at += 1;
    }
    items.truncate(start);
    row
}

/// The atoms of these low and high words.
fn join(lows: &[u64; 41], highs: &[u32; 41]) -> [Atom; 41]
    requires { All LeavesGap highs.now }
    ensures { result ≡ joined lows.now highs.now }
{
    let mut atoms = [Atom::new(0, 0); 41];
    for n in 0..41 {
        atoms[n] = Atom::from_words(lows[n], highs[n]);
    }
    atoms
}

impl Words {
    /// No words yet, and room for `most` low and as many high ones. `NoMemory` if there is none.
    pub(crate) fn new(alloc: Global, most: usize) -> Result<Words, NoMemory>
        ensures { IfOk result (λ w. w ≡ record { lows = []; highs = []; most = most }) }
    {
        Ok(Words {
            lows: Vec::with_capacity(alloc, most)?,
            highs: Vec::with_capacity(alloc, most)?,
        })
    }

    /// Puts the words of a window on the others: those that aren't 0, at the sites that its frame
    /// marks.
    pub(crate) fn push(&mut self, frame: &Frame, window: &Window)
        requires low_room { length self.old.lows + 41 ≤ self.old.most }
        requires high_room { length self.old.highs + 41 ≤ self.old.most }
        requires frame { frame.now ≡ frame_of frame.now.x frame.now.y window.now }
        ensures lows { self.new.lows ≡ self.old.lows ++ packed (low_words window.now) }
        ensures highs { self.new.highs ≡ self.old.highs ++ packed (high_words window.now) }
        ensures most { self.new.most ≡ self.old.most }
    {
        window.laws();
        push_lows(&mut self.lows, &frame.lows, window);
        push_highs(&mut self.highs, &frame.highs, window);
    }

    /// Whether a window is that of a frame, with whose words these end. True only if it is.
    fn end_with(&self, frame: &Frame, window: &Window) -> bool
        requires { EndWith frame.now self.now }
        ensures { IsTrue result → window.now ≡ last_window frame.now self.now }
    {
        window.laws();
        if !Frame::of(frame.x, frame.y, window).has_marks_of(frame) {
            return false;
        }
        let start = self.lows.len() - frame.lows.count();
        if !are_lows(&self.lows[start..], &frame.lows, window) {
            return false;
        }
        let start = self.highs.len() - frame.highs.count();
        are_highs(&self.highs[start..], &frame.highs, window)
    }

    /// Takes the last words off, those of the sites that a frame marks; the window of the frame.
    fn take(&mut self, frame: &Frame) -> Window
        requires { EndWith frame.now self.old }
        ensures window { result ≡ last_window frame.now self.old }
        ensures words { self.new ≡ without_last frame.now self.old }
    {
        let lows = take_items(&mut self.lows, &frame.lows, 0);
        let highs = take_items(&mut self.highs, &frame.highs, 0);
        Window::new(join(&lows, &highs), frame.live.by_site())
    }

    /// Takes the last words off, those of the sites that a frame marks.
    fn cut(&mut self, frame: &Frame)
        requires { EndWith frame.now self.old }
        ensures { self.new ≡ without_last frame.now self.old }
    {
        self.lows.truncate(self.lows.len() - frame.lows.count());
        self.highs.truncate(self.highs.len() - frame.highs.count());
    }

    /// As `take`, or `None` if the window of the frame is the one given. That takes less time.
    pub(crate) fn take_other(&mut self, frame: &Frame, window: &Window) -> Option<Window>
        requires { EndWith frame.now self.old }
        ensures window { MatchOption result (window.now ≡ last_window frame.now self.old) (λ w. w ≡ last_window frame.now self.old) }
        ensures words { self.new ≡ without_last frame.now self.old }
    {
        if self.end_with(frame, window) {
            self.cut(frame);
            None
        } else {
            Some(self.take(frame))
        }
    }
}
