//! Acts before their atoms have types.

use cell_grid::Rectangle;
use feast_base::Name;
use plane_acts::Act;

/// An act whose atom's type has no number yet.
#[derive(Drop)]
pub(crate) enum RawAct {
    /// One that needs no name.
    Known(Act),
    /// One that puts an atom of this name and state.
    Named(Rectangle, Name, u128),
}

/// An act, its line, and the number that it stands with: a period or a leg.
#[derive(Drop)]
pub(crate) struct NumberedAct {
    pub(crate) line: u64,
    pub(crate) number: u32,
    pub(crate) act: RawAct,
}
