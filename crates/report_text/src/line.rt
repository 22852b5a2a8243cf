//! Lines that are written from their last byte to their first. A line ends where its array does,
//! and the array is as long as the longest line of its kind.
ghost use Rattle.std.specs.Prelude.{◌≡◌, ◌+◌, ◌/◌, ◌%◌, ◌<◌, ◌≤◌, ◌∷◌, ◌++◌, [], decimal, drop, length};
ghost use Rattle.feast_base.specs.Digits.{glyph, hex};
ghost use Rattle.text_lines.specs.Lines.{ended_line};
ghost use Rattle.report_text.specs.JournalText.{abandoned_fields, record_fields};
ghost use Rattle.report_text.specs.Short.{short_abandoned_fields, short_record_fields};

use cell_grid::Record;
use event_journal::Abandoned;
use itoa::write_digits;

/// The length of the longest line of an event: four numbers of 32 bits and one of 64, the 16 digits
/// of a seed, five spaces and an LF.
pub(crate) const LONGEST_RECORD: usize = 82;

/// The length of the longest line of an abandoned attempt: five numbers of 32 bits and two of 64,
/// six spaces and an LF.
pub(crate) const LONGEST_ABANDONED: usize = 97;

/// The length of the longest line of a count, without its word: a space, a number of 64 bits and an
/// LF.
pub(crate) const LONGEST_COUNT: usize = 22;

/// The length of the longest site in the line of an atom: two numbers of 64 bits, with a space
/// behind each.
pub(crate) const LONGEST_SITE: usize = 42;

/// The length of what comes behind the name in the line of an atom: a space, the 18 digits of a
/// state and an LF.
pub(crate) const ATOM_END: usize = 20;

/// The two hexadecimal digits of each byte.
static PAIRS: [u8; 512] = *b"000102030405060708090a0b0c0d0e0f101112131415161718191a1b1c1d1e1f\
        202122232425262728292a2b2c2d2e2f303132333435363738393a3b3c3d3e3f\
        404142434445464748494a4b4c4d4e4f505152535455565758595a5b5c5d5e5f\
        606162636465666768696a6b6c6d6e6f707172737475767778797a7b7c7d7e7f\
        808182838485868788898a8b8c8d8e8f909192939495969798999a9b9c9d9e9f\
        a0a1a2a3a4a5a6a7a8a9aaabacadaeafb0b1b2b3b4b5b6b7b8b9babbbcbdbebf\
        c0c1c2c3c4c5c6c7c8c9cacbcccdcecfd0d1d2d3d4d5d6d7d8d9dadbdcdddedf\
        e0e1e2e3e4e5e6e7e8e9eaebecedeeeff0f1f2f3f4f5f6f7f8f9fafbfcfdfeff";

/// Writes a byte that ends at `end`, and returns where it starts.
#[inline(always)]
fn write_byte(byte: u8, line: &mut [u8], end: usize) -> usize
    requires { (1 ≤ end) × (end ≤ length line.old) }
    ensures start { result + 1 ≡ end }
    ensures written { drop result line.new ≡ byte ∷ drop end line.old }
{
    line[end - 1] = byte;
    end - 1
}

/// Writes a number of 32 bits that ends at `end`, and returns where it starts.
#[inline(always)]
#[tactic(auto, using(crate::proofs::WrittenLines::short_number))]
fn write_number(n: u32, line: &mut [u8], end: usize) -> usize
    requires { (10 ≤ end) × (end ≤ length line.old) }
    ensures start { (result ≤ end) × (end ≤ result + 10) }
    ensures written { drop result line.new ≡ decimal n ++ drop end line.old }
{
    write_digits(n as u64, line, end)
}

/// Writes a space and a number of 32 bits, which end at `end`, and returns where they start.
#[inline(always)]
fn write_next(n: u32, line: &mut [u8], end: usize) -> usize
    requires { (11 ≤ end) × (end ≤ length line.old) }
    ensures start { (result ≤ end) × (end ≤ result + 11) }
    ensures written { drop result line.new ≡ 32 ∷ decimal n ++ drop end line.old }
{
    let start = write_number(n, line, end);
    write_byte(b' ', line, start)
}

/// Writes a number of 64 bits that ends at `end`, and returns where it starts.
#[inline(always)]
#[tactic(auto, using(crate::proofs::WrittenLines::long_number))]
fn write_long(n: u64, line: &mut [u8], end: usize) -> usize
    requires { (20 ≤ end) × (end ≤ length line.old) }
    ensures start { (result ≤ end) × (end ≤ result + 20) }
    ensures written { drop result line.new ≡ decimal n ++ drop end line.old }
{
    write_digits(n, line, end)
}

/// Writes a space and a number of 64 bits, which end at `end`, and returns where they start.
#[inline(always)]
fn write_next_long(n: u64, line: &mut [u8], end: usize) -> usize
    requires { (21 ≤ end) × (end ≤ length line.old) }
    ensures start { (result ≤ end) × (end ≤ result + 21) }
    ensures written { drop result line.new ≡ 32 ∷ decimal n ++ drop end line.old }
{
    let start = write_long(n, line, end);
    write_byte(b' ', line, start)
}

/// Writes the two hexadecimal digits of a byte from `start` on.
#[inline(always)]
fn write_pair(byte: usize, line: &mut [u8], start: usize)
    requires { (byte < 256) × (start + 2 ≤ length line.old) }
    ensures { drop start line.new ≡ glyph (byte / 16) ∷ glyph (byte % 16) ∷ drop (start + 2) line.old }
{
    let (high, low) = (PAIRS[byte * 2], PAIRS[byte * 2 + 1]);
    line[start] = high;
    line[start + 1] = low;
}

/// Writes the 16 digits of a seed, which end at `end`, two at a time, and returns where they start.
#[inline(always)]
fn write_seed(n: u64, line: &mut [u8], end: usize) -> usize
    requires { (16 ≤ end) × (end ≤ length line.old) }
    ensures start { result + 16 ≡ end }
    ensures written { drop result line.new ≡ hex 16 n ++ drop end line.old }
{
    let mut left = n;
    for pair in 0..8usize {
        write_pair((left % 256) as usize, line, end - 2 - 2 * pair);
        left /= 256;
    }
    end - 16
}

/// Writes the 18 digits of a state, which end at `end`, two at a time, and returns where they start.
#[inline(always)]
fn write_state(n: u128, line: &mut [u8], end: usize) -> usize
    requires { (18 ≤ end) × (end ≤ length line.old) }
    ensures start { result + 18 ≡ end }
    ensures written { drop result line.new ≡ hex 18 n ++ drop end line.old }
{
    let mut left = n;
    for pair in 0..9usize {
        write_pair((left % 256) as usize, line, end - 2 - 2 * pair);
        left /= 256;
    }
    end - 18
}

/// Writes what follows the word in the line of a count, and returns where it starts.
pub(crate) fn write_count(count: u64, line: &mut [u8; LONGEST_COUNT]) -> usize
    ensures within { result ≤ 22 }
    ensures written { drop result line.new ≡ 32 ∷ decimal count ++ 10 ∷ [] }
{
    let at = write_byte(b'\n', line, LONGEST_COUNT);
    write_next_long(count, line, at)
}

/// Writes the site of an atom at a place in row order, with a space behind each number, and returns
/// where it starts.
pub(crate) fn write_site(width: u32, place: usize, line: &mut [u8; LONGEST_SITE]) -> usize
    requires { 1 ≤ width }
    ensures within { result ≤ 42 }
    ensures written { drop result line.new ≡ decimal (place % width) ++ (32 ∷ (decimal (place / width) ++ 32 ∷ [])) }
{
    let width = width as usize;
    let at = write_byte(b' ', line, LONGEST_SITE);
    let at = write_next_long((place / width) as u64, line, at);
    write_long((place % width) as u64, line, at)
}

/// Writes what follows the name in the line of an atom, and returns where it starts.
pub(crate) fn write_atom_end(state: u128, line: &mut [u8; ATOM_END]) -> usize
    ensures within { result ≤ 20 }
    ensures written { drop result line.new ≡ 32 ∷ hex 18 state ++ 10 ∷ [] }
{
    let at = write_byte(b'\n', line, ATOM_END);
    let at = write_state(state, line, at);
    write_byte(b' ', line, at)
}

/// Writes the line of an event, and returns where it starts.
pub(crate) fn write_record(entry: &Record, line: &mut [u8; LONGEST_RECORD]) -> usize
    ensures within { result ≤ 82 }
    ensures written { drop result line.new ≡ ended_line (record_fields entry.now) }
{
    let at = write_byte(b'\n', line, LONGEST_RECORD);
    let at = write_seed(entry.seed, line, at);
    let at = write_byte(b' ', line, at);
    let at = write_next(entry.y, line, at);
    let at = write_next(entry.x, line, at);
    let at = write_next_long(entry.attempt, line, at);
    let at = write_next(entry.tile, line, at);
    write_number(entry.stamp, line, at)
}

/// Writes the short line of an event, without its site and its seed, and returns where it starts.
pub(crate) fn write_short_record(entry: &Record, line: &mut [u8; LONGEST_RECORD]) -> usize
    ensures within { result ≤ 82 }
    ensures written { drop result line.new ≡ ended_line (short_record_fields entry.now) }
{
    let at = write_byte(b'\n', line, LONGEST_RECORD);
    let at = write_next_long(entry.attempt, line, at);
    let at = write_next(entry.tile, line, at);
    write_number(entry.stamp, line, at)
}

/// Writes the line of an abandoned attempt, and returns where it starts.
pub(crate) fn write_abandoned(entry: &Abandoned, line: &mut [u8; LONGEST_ABANDONED]) -> usize
    ensures within { result ≤ 97 }
    ensures written { drop result line.new ≡ ended_line (abandoned_fields entry.now) }
{
    let at = write_byte(b'\n', line, LONGEST_ABANDONED);
    let at = write_next_long(entry.holder_attempt, line, at);
    let at = write_next(entry.holder, line, at);
    let at = write_next(entry.edge, line, at);
    let at = write_next(entry.y, line, at);
    let at = write_next(entry.x, line, at);
    let at = write_next_long(entry.attempt, line, at);
    write_number(entry.tile, line, at)
}

/// Writes the short line of an abandoned attempt, without its site, and returns where it starts.
pub(crate) fn write_short_abandoned(entry: &Abandoned, line: &mut [u8; LONGEST_ABANDONED]) -> usize
    ensures within { result ≤ 97 }
    ensures written { drop result line.new ≡ ended_line (short_abandoned_fields entry.now) }
{
    let at = write_byte(b'\n', line, LONGEST_ABANDONED);
    let at = write_next_long(entry.holder_attempt, line, at);
    let at = write_next(entry.holder, line, at);
    let at = write_next(entry.edge, line, at);
    let at = write_next_long(entry.attempt, line, at);
    write_number(entry.tile, line, at)
}
