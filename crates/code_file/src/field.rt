//! Fields of atoms.

use sat_math::Kind;

/// A field of an atom: its first bit, its width, and the kind of its number.
#[derive(Clone, Copy)]
pub struct Field {
    pub first: u8,
    pub width: u8,
    pub kind: Kind,
}
