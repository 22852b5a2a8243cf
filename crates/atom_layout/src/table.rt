//! Layouts.
ghost use Rattle.std.specs.Prelude.{◌≡◌, ◌<◌, length, get_or, sum};
ghost use Rattle.atom_layout.specs.Layouts.{class_at, first_bit};
ghost use Rattle.atom_layout.specs.Rows.{rows_of, AllNarrow};

use std::marker::Model;

/// The bits of the data members of each class, seen as a list for each class.
#[derive(Drop)]
pub struct Layout {
    classes: Vec<Vec<u32>>,
}

impl Model for Layout {
    ghost use Rattle.std.specs.Prelude.{ℕ, List};
    ghost use Rattle.atom_layout.specs.Rows.{rows_of, AllNarrow};

    ghost Value = { List (List ℕ) };

    ghost view = { λ l. rows_of l.classes.items };

    ghost invariant = { λ l. AllNarrow (rows_of l.classes.items) };
}

impl Layout {
    /// A layout of these bits.
    pub(crate) fn of(classes: Vec<Vec<u32>>) -> Layout
        requires { AllNarrow (rows_of classes.items) }
        ensures { result ≡ rows_of classes.items }
    {
        Layout { classes }
    }

    /// The first bit of a data member in the bits of its class.
    pub fn first(&self, class: u32, member: u32) -> u32
        requires class { class < length self.now }
        requires member { member < length (class_at self.now class) }
        ensures { result ≡ first_bit self.now class member }
    {
        let mut bit = 0;
        for width in &self.classes[class as usize][..member as usize] {
            bit += *width;
        }
        bit
    }

    /// The bits that a data member takes.
    pub fn width(&self, class: u32, member: u32) -> u32
        requires class { class < length self.now }
        requires member { member < length (class_at self.now class) }
        ensures { result ≡ get_or (class_at self.now class) member 0 }
    {
        self.classes[class as usize][member as usize]
    }

    /// The bits that a class takes.
    pub fn bits(&self, class: u32) -> u32
        requires { class < length self.now }
        ensures { result ≡ sum (class_at self.now class) }
    {
        let mut bits = 0;
        for width in &self.classes[class as usize] {
            bits += *width;
        }
        bits
    }
}
