//! What a line of a chain says.

use crate::chain::Journal;

/// An area: its first column and row, and how many columns and rows it has.
#[derive(Clone, Copy)]
pub(crate) struct Area {
    pub(crate) x: u128,
    pub(crate) y: u128,
    pub(crate) w: u128,
    pub(crate) h: u128,
}

/// What an act says. Its numbers are of any size that its form allows, but for a chance, which is
/// in billionths.
#[derive(Drop)]
pub(crate) enum ActLine<'a> {
    Clear(Area),
    Put(Area, &'a [u8], u128),
    Erase(u32, Area),
    Flip(u32, Area),
    Attempts(u128),
}

/// A line of a chain. `Plain` is one that a world has too.
#[derive(Drop)]
pub(crate) enum Line<'a> {
    Header,
    Plain(world_text::Line<'a>),
    Legs(u128),
    First(u128),
    Journal(Journal),
    Print(u128),
    Every(u128, ActLine<'a>),
    Act(u128, ActLine<'a>),
}
