//! Tests of lines and fields.

use feast_base::NoMemory;
use std::alloc::Global;
use std::test::Fail;
use text_lines::{
    Field, first_field, is_skipped, next_ended, next_line, number, push_line, seed, state,
};

/// Whether a line and the rest after it are these, or none is there.
fn is_cut(cut: Option<(&[u8], &[u8])>, expected: Option<(&str, &str)>) -> bool {
    match (cut, expected) {
        (Some((line, rest)), Some((text, after))) => {
            line == text.as_bytes() && rest == after.as_bytes()
        }
        (None, None) => true,
        _ => false,
    }
}

/// Texts with their first line, and what follows it.
const LINES: [(&str, Option<(&str, &str)>); 4] = [
    ("a\r\nb\n", Some(("a", "b\n"))),
    ("a\r\r\n", Some(("a\r", ""))),
    ("a\r", Some(("a\r", ""))),
    ("", None),
];

/// Texts with their first line that a line feed ends, and what follows it.
const ENDED: [(&str, Option<(&str, &str)>); 2] = [("a\r\nb\n", Some(("a\r", "b\n"))), ("a", None)];

#[test]
fn lines_end_at_line_feeds(rt: HostRuntime) {
    for (text, expected) in LINES {
        assert!(rt; is_cut(next_line(text.as_bytes()), expected), "{text}");
    }
}

#[test]
fn a_line_without_a_line_feed_has_not_ended(rt: HostRuntime) {
    for (text, expected) in ENDED {
        assert!(rt; is_cut(next_ended(text.as_bytes()), expected), "{text}");
    }
}

const SKIPPED: [(&str, bool); 3] = [("", true), ("# a", true), (" # a", false)];

#[test]
fn empty_lines_and_notes_are_skipped(rt: HostRuntime) {
    for (line, expected) in SKIPPED {
        assert!(rt; is_skipped(line.as_bytes()) == expected, "{line}");
    }
}

const NUMBERS: [(&str, Option<u128>); 8] = [
    ("0", Some(0)),
    ("10", Some(10)),
    ("18446744073709551616", Some(18_446_744_073_709_551_616)),
    ("100000000000000000000", None),
    ("01", None),
    ("", None),
    ("+1", None),
    ("1x", None),
];

#[test]
fn numbers_are_canonical(rt: HostRuntime) {
    for (text, wanted) in NUMBERS {
        assert!(rt; number(text.as_bytes()) == wanted, "{text}");
    }
}

const SEEDS: [(&str, Option<u64>); 3] = [
    ("00000000000000ff", Some(255)),
    ("00000000000000fF", None),
    ("0000000000000ff", None),
];

#[test]
fn seeds_have_sixteen_digits(rt: HostRuntime) {
    for (text, expected) in SEEDS {
        assert!(rt; seed(text.as_bytes()) == expected, "{text}");
    }
}

const STATES: [(&str, Option<u128>); 2] = [
    ("ff0000000000000000", Some(0xff_0000_0000_0000_0000)),
    ("ff000000000000000", None),
];

#[test]
fn states_have_eighteen_digits(rt: HostRuntime) {
    for (text, expected) in STATES {
        assert!(rt; state(text.as_bytes()) == expected, "{text}");
    }
}

/// The line of a word, a number, a seed and a state.
fn four_fields(alloc: Global) -> Result<Vec<u8>, NoMemory> {
    let mut out = Vec::new(alloc);
    push_line(
        &mut out,
        &[
            Field::Word(b"atom"),
            Field::Number(0),
            Field::Seed(255),
            Field::State(5),
        ],
    )?;
    Ok(out)
}

#[test]
fn a_line_is_printed_field_by_field(rt: HostRuntime) -> Result<(), Fail> {
    let line = four_fields(rt.alloc())?;
    assert!(rt; line.as_slice() == b"atom 0 00000000000000ff 000000000000000005\n".as_slice());
    Ok(())
}

#[test]
fn a_space_ends_the_first_field(rt: HostRuntime) {
    let (first, rest) = first_field(b"atom 0");
    assert!(rt; first == b"atom".as_slice());
    assert!(rt; rest == Some(b"0".as_slice()));
}
