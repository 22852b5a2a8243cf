//! Atoms: a type number and 71 bits of state, read and written field by field.
//!
//! An atom is 96 bits: 16 bits of type number, 9 zero bits, 71 bits of state. Bit 0 of the state
//! is its most significant one.
#![tactic(auto)]

ghost use Rattle.std.specs.Prelude.{◌≡◌, ◌+◌, ◌*◌, ◌^◌, ◌<◌, ◌≤◌};
ghost use Rattle.bit_field.specs.Atom.{AtomValue, IsAtom, field, bits_of, SameOutside, LeavesGap};
ghost use Rattle.bit_field.specs.Words.{AreWordsOf, atom_of, with_bits, with_field};
ghost use Rattle.bit_field.specs.declared.TheConstants.{STATE_BITS};

use std::marker::Model;

/// How many bits a state has.
pub const STATE_BITS: u32 = 71;

/// An atom: a type number and a state. It takes 16 bytes.
#[derive(Clone, Copy, Debug, PartialEq, Eq)]
pub struct Atom {
    /// The low 64 of the 96 bits.
    low: u64,
    /// The high 32 of the 96 bits: the type, nine zero bits, the top seven bits of the state.
    high: u32,
}

impl Model for Atom {
    ghost use Rattle.std.specs.Prelude.{◌%◌, ◌/◌, ◌^◌};
    ghost use Rattle.bit_field.specs.Atom.{AtomValue, IsAtom, bits_of};
    ghost use Rattle.bit_field.specs.Words.{AreWords, atom_of};
    ghost use Rattle.bit_field.specs.Kept.{words-low, words-high};

    ghost Value = { AtomValue };

    ghost view = { λ a. atom_of a.low a.high };

    ghost invariant = { λ a. AreWords a.low a.high };

    ghost inverse = { λ a. record { low = bits_of a % 2 ^ 64; high = bits_of a / 2 ^ 64 } };

    ghost inverse_ok = { λ a h i. record { low = words-low a.low a.high h i; high = words-high a.low a.high h i } };
}

impl Atom {
    /// The atom of a type and a state. The state is below 2^71.
    pub fn new(kind: u16, state: u128) -> Atom
        requires { state < 2 ^ STATE_BITS }
        ensures { result ≡ record { kind = kind; state = state } }
    {
        Atom {
            low: (state % (1u128 << 64)) as u64,
            high: u32::from(kind) * (1 << 16) + (state >> 64) as u32,
        }
    }

    /// The type number.
    pub fn kind(&self) -> u16
        ensures { result ≡ self.now.kind }
    {
        (self.high / (1 << 16)) as u16
    }

    /// The state, below 2^71.
    pub fn state(&self) -> u128
        ensures value { result ≡ self.now.state }
        ensures bound { result < 2 ^ STATE_BITS }
    {
        u128::from(self.high % (1 << 16)) * (1u128 << 64) + u128::from(self.low)
    }

    /// The field of `width` bits from bit `first` of the state on. It has 1 to 64 bits and ends
    /// at bit 71 at most.
    pub fn get(&self, first: u32, width: u32) -> u64
        requires some { 1 ≤ width }
        requires fits { width ≤ 64 }
        requires within { first + width ≤ STATE_BITS }
        ensures value { result ≡ field self.now first width }
        ensures bound { result < 2 ^ width }
    {
        let shift = STATE_BITS - first - width;
        ((self.state() >> shift) % (1u128 << width)) as u64
    }

    /// Sets the field of `width` bits from bit `first` of the state on, and no other bit. It has
    /// 1 to 64 bits and ends at bit 71 at most, and the value fits it.
    pub fn set(&mut self, first: u32, width: u32, value: u64)
        requires some { 1 ≤ width }
        requires fits { width ≤ 64 }
        requires within { first + width ≤ STATE_BITS }
        requires small { value < 2 ^ width }
        ensures same { field self.new first width ≡ value }
        ensures others { SameOutside self.old self.new first width }
        ensures kind { self.new.kind ≡ self.old.kind }
        ensures whole { self.new ≡ with_field self.old first width value }
    {
        let state = replace_bits(self.state(), STATE_BITS - first - width, width, value);
        *self = Atom::new(self.kind(), state);
    }

    /// The low 64 and the high 32 of the 96 bits.
    pub fn to_words(&self) -> (u64, u32)
        ensures words { AreWordsOf self.now result.0 result.1 }
        ensures gap { LeavesGap result.1 }
        ensures back { atom_of result.0 result.1 ≡ self.now }
    {
        (self.low, self.high)
    }

    /// The atom of the low 64 and the high 32 bits, of which bits 7 to 15 of the high ones are 0.
    /// There is exactly one such atom.
    pub fn from_words(low: u64, high: u32) -> Atom
        requires { LeavesGap high }
        ensures value { result ≡ atom_of low high }
        ensures words { AreWordsOf result low high }
        ensures only { (a : AtomValue) → IsAtom a → AreWordsOf a low high → a ≡ result }
    {
        Atom { low, high }
    }
}

/// The number with the `width` bits above its low `shift` ones replaced.
fn replace_bits(state: u128, shift: u32, width: u32, value: u64) -> u128
    requires bound { state < 2 ^ STATE_BITS }
    requires within { shift + width ≤ STATE_BITS }
    requires small { value < 2 ^ width }
    ensures value { result ≡ with_bits state shift width value }
    ensures below { result < 2 ^ STATE_BITS }
{
    let high = state >> shift >> width;
    let low = state % (1u128 << shift);
    (high * (1u128 << width) + u128::from(value)) * (1u128 << shift) + low
}
