//! Chances.

ghost use Rattle.std.specs.Prelude.{◌≡◌, ◌≤◌};
ghost use Rattle.plane_acts.specs.Acts.{is_hit};
ghost use Rattle.plane_acts.specs.declared.chance.TheConstants.{BILLION};

use std::marker::Model;

/// How many billionths make the chance that always comes about.
pub const BILLION: u32 = 1_000_000_000;

/// A chance from 0 to 1. Contracts see the number of its billionths.
#[derive(Clone, Copy, Debug, PartialEq, Eq)]
pub struct Chance {
    billionths: u32,
}

impl Model for Chance {
    ghost use Rattle.std.specs.Prelude.{ℕ, ◌≤◌};
    ghost use Rattle.plane_acts.specs.declared.chance.TheConstants.{BILLION};

    ghost Value = { ℕ };

    ghost view = { λ c. c.billionths };

    ghost invariant = { λ c. c.billionths ≤ BILLION };

    ghost inverse = { λ n. record { billionths = n } };
}

impl Chance {
    /// The chance of this many billionths, 0 to 1,000,000,000.
    pub fn of_billionths(billionths: u32) -> Chance
        requires { billionths ≤ BILLION }
        ensures { result ≡ billionths }
    {
        Chance { billionths }
    }

    /// How many billionths the chance is, 0 to 1,000,000,000.
    pub fn billionths(self) -> u32
        ensures value { result ≡ self }
        ensures bound { result ≤ BILLION }
    {
        self.billionths
    }

    /// Whether a word hits the chance: its remainder modulo a billion is below the billionths.
    pub(crate) fn is_hit(self, word: u64) -> bool
        ensures { result ≡ is_hit self word }
    {
        word % u64::from(BILLION) < u64::from(self.billionths)
    }
}
