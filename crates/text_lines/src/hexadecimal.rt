//! Hexadecimal digits of fixed number.
ghost use Rattle.std.specs.Prelude.{◌≡◌, ◌<◌};
ghost use Rattle.feast_base.specs.Digits.{glyph, hex};

/// A hexadecimal digit.
fn digit(n: u8) -> u8
    requires { n < 16 }
    ensures { result ≡ glyph n }
{
    if n < 10 { b'0' + n } else { b'a' + (n - 10) }
}

/// The 16 digits of a seed, the greatest first and in lower case.
pub fn seed_digits(n: u64) -> [u8; 16]
    ensures { result ≡ hex 16 n }
{
    let mut digits = [b'0'; 16];
    let mut left = n;
    for i in (0..16usize).rev() {
        digits[i] = digit((left % 16) as u8);
        left /= 16;
    }
    digits
}

/// The low 18 digits of a state, the greatest first and in lower case.
pub fn state_digits(n: u128) -> [u8; 18]
    ensures { result ≡ hex 18 n }
{
    let mut digits = [b'0'; 18];
    let mut left = n;
    for i in (0..18usize).rev() {
        digits[i] = digit((left % 16) as u8);
        left /= 16;
    }
    digits
}
