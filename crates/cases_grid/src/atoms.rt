//! Atoms, their fields and their words.

use bit_field::Atom;

#[test]
fn fields_are_counted_from_the_most_significant_bit(rt: HostRuntime) {
    let atom = Atom::new(7, 0x55_0123_4567_89ab_cdef);
    let fields = [
        (0, 1, 1),
        (1, 1, 0),
        (0, 7, 0x55),
        (7, 8, 0x01),
        (67, 4, 0xf),
        (3, 8, 0x50),
        (7, 64, 0x0123_4567_89ab_cdef),
    ];
    for (first, width, value) in fields {
        assert!(rt;
            atom.get(first, width) == value,
            "{width} bits from {first}"
        );
    }
}

#[test]
fn an_atom_has_its_type_and_its_state(rt: HostRuntime) {
    let atom = Atom::new(7, 0x55_0123_4567_89ab_cdef);
    assert!(rt; atom.kind() == 7);
    assert!(rt; atom.state() == 0x55_0123_4567_89ab_cdef);
}

/// First bits, widths and values of fields, with the state that is left where all bits were 1.
const SET: [(u32, u32, u64, u128); 4] = [
    (0, 1, 0, 0x3f_ffff_ffff_ffff_ffff),
    (67, 4, 0, 0x7f_ffff_ffff_ffff_fff0),
    (7, 64, 0, 0x7f_0000_0000_0000_0000),
    (63, 8, 0x80, 0x7f_ffff_ffff_ffff_ff80),
];

#[test]
fn a_field_is_set_in_its_place(rt: HostRuntime) {
    for (first, width, value, state) in SET {
        let mut atom = Atom::new(9, 0x7f_ffff_ffff_ffff_ffff);
        atom.set(first, width, value);
        assert!(rt; atom == Atom::new(9, state), "{width} bits from {first}");
    }
}

#[test]
fn words_have_the_type_on_top(rt: HostRuntime) {
    let atom = Atom::new(0xabcd, 0x55_0123_4567_89ab_cdef);
    let (low, high) = atom.to_words();
    assert!(rt; low == 0x0123_4567_89ab_cdef && high == 0xabcd_0055);
    assert!(rt; Atom::from_words(0x0123_4567_89ab_cdef, 0xabcd_0055) == atom);
}
