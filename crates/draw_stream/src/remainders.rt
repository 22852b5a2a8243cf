//! Remainders of words.
ghost use Rattle.std.specs.Prelude.{◌≡◌, ◌≤◌, ◌%◌};

/// The remainder of a word modulo a number. If that is a power of two, as the number of a tile's
/// sites mostly is, it takes no division.
#[inline]
pub fn remainder(word: u64, modulus: u64) -> u64
    requires { 1 ≤ modulus }
    ensures { result ≡ word % modulus }
{
    if modulus.is_power_of_two() {
        word & (modulus - 1)
    } else {
        word % modulus
    }
}
