//! The texts of a set take as much memory as they are long.

use element_set::ElementSet;
use feast_base::{NoMemory, Source};
use std::alloc::Global;
use std::test::Fail;

/// Files with no class, without an element, with several of both, and with calls.
const FILES: [&str; 4] = [
    "",
    "quark Part { Bool b; Int(3) xs[2]; }",
    "quark Part { Bits b; EventWindow ew; } element A { Part p; Unary(3) n; Void behave() { n++; } } element Stone { Void behave() { } }",
    "element Walker { EventWindow ew; Bool gone; Void go(Int to) { ew.swap(0, 4); gone = true; } Void behave() { go(-7); } }",
];

/// The set of a file of at most 1,000 bytes.
fn built(alloc: Global, text: &str) -> Result<ElementSet, Fail> {
    if text.len() > 1000 {
        return Err(Fail::from("too long"));
    }
    let file = Source::new(alloc, "e", Vec::from_slice(alloc, text.as_bytes())?)?;
    match ElementSet::build(alloc, &[file]) {
        Ok(set) => Ok(set),
        Err(_) => Err(Fail::from("refused")),
    }
}

/// Whether both texts of a set take as much memory as they are long.
fn are_exact(alloc: Global, set: &ElementSet) -> Result<bool, NoMemory> {
    let mut shown = Vec::new(alloc);
    set.print_check(&mut shown)?;
    if shown.capacity() != shown.len() {
        return Ok(false);
    }
    set.print_code(&mut shown)?;
    Ok(shown.capacity() == shown.len())
}

#[test]
fn texts_of_sets_take_as_much_memory_as_they_are_long(rt: HostRuntime) -> Result<(), Fail> {
    for text in &FILES {
        let set = built(rt.alloc(), text)?;
        let told = are_exact(rt.alloc(), &set);
        drop(set);
        assert!(rt; told?, "{text}");
    }
    Ok(())
}
