//! Texts that are refused, each with its code and its line.
ghost use Rattle.std.specs.Prelude.{◌≤◌, length};

use crate::said::{fault, names};
use feast_base::text::push;
use feast_base::{Name, NoMemory};
use std::alloc::Global;
use std::test::Fail;

/// The first lines of the chains of `LATER`.
const BEGUN: &str = "chain 1\ntiles 1 1\nsize 8 8\nseed 5\nattempts 6\nlegs 3\n";

/// What follows on `BEGUN`, with the code and the line of its fault.
const LATER: [(&str, u32, u64); 49] = [
    ("atom 0 0 Mouse\nact 1 clear 0 0 1 1\n", 71, 8),
    ("act 1\n", 71, 7),
    ("act 1 attempts 3 4\n", 71, 7),
    ("act 1 paint 0 0 1 1\n", 71, 7),
    ("act\n", 71, 7),
    ("act 2 clear 0 0 1 1\nact 1 paint\n", 71, 8),
    ("act 0 flip 7 0 0 1 1\n", 71, 7),
    ("act 1 erase .5 0 0 1 1\n", 71, 7),
    ("act 1 flip 0. 0 0 1 1\n", 71, 7),
    ("act 1 flip 1.0 0 0 1 1\n", 71, 7),
    ("act 1 erase 0.1234567890 0 0 1 1\n", 71, 7),
    ("act 1 flip 2 0 0 1 1\n", 71, 7),
    ("act 1 clear 0 0 1 1 1\n", 71, 7),
    ("act 1 clear 0 0 1\n", 71, 7),
    ("act 1 clear 0 0 1 1\nevery 1 clear 0 0 1 1\n", 71, 8),
    ("every 1 attempts 3\n", 71, 7),
    ("every 2 attempts 99999999\n", 71, 7),
    ("feast 1\n", 71, 7),
    ("journal short\nfirst 2\n", 71, 8),
    ("first 100000000000000000000\n", 71, 7),
    ("first 1\nfirst 2\n", 71, 8),
    ("journal long\n", 71, 7),
    ("legs 3\n", 71, 7),
    ("order seed 1\n", 71, 7),
    ("print 2\n", 71, 7),
    ("journal short\nprint 2\n", 71, 8),
    ("journal none\nprint 2\nprint 3\n", 71, 9),
    ("act 1 put 0 0 1 1 mouse\n", 71, 7),
    ("act 1 put 0 0 1 1 Mouse 3\n", 71, 7),
    ("act 0 clear 0 0 1 1\n", 72, 7),
    ("act 0 attempts 1000001\n", 72, 7),
    ("act 4294967296 clear 0 0 1 1\n", 72, 7),
    ("act 3 clear 0 0 1 1\nact 2 clear 0 0 1 1\n", 72, 8),
    ("act 1 clear 0 8 1 1\n", 72, 7),
    ("act 1 clear 0 0 0 1\n", 72, 7),
    ("act 1 clear 1 0 8 1\n", 72, 7),
    ("act 1 clear 18446744073709551615 0 1 1\n", 72, 7),
    ("every 0 clear 0 0 1 1\n", 72, 7),
    ("first 0\n", 72, 7),
    ("first 4294967294\n", 72, 7),
    ("first 18446744073709551615\n", 72, 7),
    ("journal none\nprint 0\n", 72, 8),
    ("journal none\nprint 1000001\n", 72, 8),
    ("act 1 put 0 0 1 1 Mouse 800000000000000000\n", 72, 7),
    ("act 1 put 0 0 1 1 Mouse\natom 0 0 Dog\n", 73, 8),
    ("every 1 put 0 0 1 1 Cat\natom 0 0 Dog\n", 73, 7),
    ("act 1 put 0 0 1 1 Empty\n", 73, 7),
    ("atom 0 0 Mouse\natom 0 0 Mouse\n", 74, 8),
    ("act 1 attempts 18446744073709551616\n", 75, 7),
];

/// Whole texts, with the code and the line of their fault.
const WHOLE: [(&str, u32, u64); 18] = [
    ("chain 1\r", 70, 1),
    ("", 70, 1),
    ("chain 2\n", 70, 1),
    ("chain 1 1\n", 70, 1),
    (
        "chain 1\ntiles 1 1\nsize 8 8\ntry 0 0 0 0000000000000000\n",
        71,
        4,
    ),
    (
        "chain 1\ntiles 1 1\nsize 8 8\nseed 5\nattempts 6\nlegs 0\n",
        72,
        6,
    ),
    (
        "chain 1\ntiles 1 1\nsize 8 8\nseed 5\nattempts 6\nlegs 1000001\n",
        72,
        6,
    ),
    ("chain 1\ntiles 2 1\nsize 8 8\noff 0\noff 1\n", 72, 5),
    (
        "chain 1\ntiles 1 1\nsize 8 8\nseed 5\nattempts 6\nlegs 2\nact 9 put 0 0 1 1 Nobody\n",
        73,
        7,
    ),
    (
        "chain 1\ntiles 1 1\nsize 8 8\nseed 5\nattempts 6\nlegs 2\nact 9 attempts 1000001\n",
        75,
        7,
    ),
    (
        "chain 1\ntiles 2 2\nsize 8 8\nseed 5\nattempts 6\nlegs 2\nact 1 attempts 250001\n",
        75,
        7,
    ),
    (
        "chain 1\ntiles 1 1\nsize 8 8\nseed 5\nattempts 1000001\nlegs 3\n",
        75,
        5,
    ),
    (
        "chain 1\ntiles 2 2\nsize 8 8\nseed 5\nattempts 250001\nlegs 3\n",
        75,
        5,
    ),
    ("chain 1\ntiles 1 1\nsize 8 8\nseed 1\n", 76, 5),
    ("chain 1\ntiles 1 1\nsize 8 8\nseed 1\nattempts 1\n", 76, 6),
    ("chain 1\ntiles 1 1\nsize 8 8\n", 76, 4),
    ("chain 1\ntiles 1 1\n", 76, 3),
    ("chain 1\n", 76, 2),
];

/// The fault of a text that begins with `BEGUN`.
fn later_fault(alloc: Global, text: &str, names: &[Name]) -> Result<(u32, u64), NoMemory>
    requires { length names.now ≤ 65535 }
{
    let mut whole = Vec::new(alloc);
    push(&mut whole, BEGUN.as_bytes())?;
    push(&mut whole, text.as_bytes())?;
    Ok(fault(alloc, whole.as_slice(), names))
}

#[test]
fn a_chain_is_refused_at_its_first_fault(rt: HostRuntime) -> Result<(), Fail> {
    let names = names(rt.alloc())?;
    for (text, code, line) in LATER {
        let found = later_fault(rt.alloc(), text, names.as_slice())?;
        assert!(rt; found.0 == code && found.1 == line);
    }
    Ok(())
}

#[test]
fn a_text_that_is_no_whole_chain_is_refused(rt: HostRuntime) -> Result<(), Fail> {
    let names = names(rt.alloc())?;
    for (text, code, line) in WHOLE {
        let found = fault(rt.alloc(), text.as_bytes(), names.as_slice());
        assert!(rt; found.0 == code && found.1 == line);
    }
    Ok(())
}
