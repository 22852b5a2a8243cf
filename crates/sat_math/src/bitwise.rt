//! Operations on bits.

ghost use Rattle.std.specs.Prelude.{◌≡◌, ◌≤◌, ◌<◌, ◌-◌, ◌^◌, ◌/◌, bit_and, bit_or, bit_xor};
ghost use Rattle.sat_math.specs.Numbers.{widest};
ghost use Rattle.sat_math.specs.Operations.{complement, moved_up};

/// The bits that both have.
pub fn and(a: u64, b: u64) -> u64
    ensures { result ≡ bit_and a b }
{
    a & b
}

/// The bits that one of the two has, or both.
pub fn or(a: u64, b: u64) -> u64
    ensures { result ≡ bit_or a b }
{
    a | b
}

/// The bits that one of the two has, and not both.
pub fn xor(a: u64, b: u64) -> u64
    ensures { result ≡ bit_xor a b }
{
    a ^ b
}

/// `count` low bits that are ones, and no others.
pub(crate) fn ones(count: u8) -> u64
    requires { count ≤ widest }
    ensures { result ≡ 2 ^ count - 1 }
{
    ((1u128 << count) - 1) as u64
}

/// The low `width` bits, each turned into its opposite. The width is one that `Bits` allows, from
/// 1 to 64. Bits of `a` above them do not matter.
#[tactic(auto, using(crate::proofs::Words::complement_low, std::proofs::lemmas::Nat::and_mask))]
pub fn not(width: u8, a: u64) -> u64
    requires some { 1 ≤ width }
    requires fits { width ≤ widest }
    ensures value { result ≡ complement width a }
    ensures bound { result < 2 ^ width }
{
    !a & ones(width)
}

/// The bits moved up by `count` places. Only the low `width` bits are kept, so a count of the
/// width or more gives 0. The width is one that `Bits` allows, from 1 to 64.
#[tactic(auto, using(crate::proofs::Words::cut_low, crate::proofs::Words::moved_out, std::proofs::lemmas::Nat::and_mask))]
pub fn shl(width: u8, a: u64, count: u64) -> u64
    requires some { 1 ≤ width }
    requires fits { width ≤ widest }
    ensures value { result ≡ moved_up width a count }
    ensures gone { width ≤ count → result ≡ 0 }
    ensures bound { result < 2 ^ width }
{
    if count >= u64::from(width) {
        return 0;
    }
    (a << count) & ones(width)
}

/// The bits moved down by `count` places. A count of 64 or more gives 0.
#[tactic(auto, using(crate::proofs::Words::moved_down_out))]
pub fn shr(a: u64, count: u64) -> u64
    ensures value { result ≡ a / 2 ^ count }
    ensures gone { 64 ≤ count → result ≡ 0 }
{
    if count >= 64 {
        return 0;
    }
    a >> count
}
