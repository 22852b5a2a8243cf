//! What events compute with: numbers in their range, and atoms.
#![tactic(auto)]

ghost use Rattle.std.specs.Prelude.{◌≡◌};
ghost use Rattle.sat_math.specs.Numbers.{IsNumber};

use bit_field::Atom;
use std::marker::Model;

/// A whole number from -2^63 to 2^64 - 1.
#[derive(Clone, Copy)]
pub struct Number {
    value: i128,
}

impl Model for Number {
    ghost use Rattle.std.specs.Prelude.{ℤ};
    ghost use Rattle.sat_math.specs.Numbers.{IsNumber};

    ghost Value = { ℤ };

    ghost view = { λ n. n.value };

    ghost invariant = { λ n. IsNumber n.value };

    ghost inverse = { λ v. record { value = v } };
}

impl Number {
    /// The number of this value, which is from -2^63 to 2^64 - 1.
    #[inline(always)]
    pub fn new(value: i128) -> Number
        requires { IsNumber value }
        ensures { result ≡ value }
    {
        Number { value }
    }

    /// The value, from -2^63 to 2^64 - 1.
    #[inline(always)]
    pub fn value(&self) -> i128
        ensures value { result ≡ self.now }
        ensures range { IsNumber result }
    {
        self.value
    }
}

/// A number or an atom: what an operand, a slot or a local holds.
#[derive(Clone, Copy)]
pub enum Datum {
    /// A number.
    Number(Number),
    /// An atom.
    Atom(Atom),
}
