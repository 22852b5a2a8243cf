//! The plain instructions on fields of atoms and on their elements: a function for each shape.

ghost use Rattle.std.specs.Prelude.{◌≡◌, ◌<◌, ◌≤◌, ◌+◌, ◌*◌, ℕ, length};
ghost use Rattle.stack_code.specs.Sorts.{Field, SetField, Part, SetPart, FieldAt, SetFieldAt, PartAt, SetPartAt, num_type};
ghost use Rattle.stack_code.specs.Machine.{work, with_part, kept_bits};
ghost use Rattle.event_machine.specs.Works.{Works, FieldFits};
ghost use Rattle.stack_code.specs.declared.limits.TheConstants.{MOST_OPERANDS};

use crate::activation::Activation;
use crate::ending::Leads;
use crate::numbers::{index, read_field, write_field};
use bit_field::Atom;
use datum::{Datum, Number};
use sat_math::{Kind, NumType};

/// Pushes a field of the atom at the centre. Failure 6.
#[inline]
pub fn load_field(running: &mut Activation, kind: u16, first: u8, width: u8, of: Kind) -> Leads
    requires fits { FieldFits first (num_type of width) 1 }
    requires room { length running.old.stack ≤ MOST_OPERANDS }
    ensures { Works (work kind (Field first (num_type of width)) running.old) running.new result }
{
    let of = NumType { kind: of, width };
    match running.own(kind) {
        Some(atom) => {
            running.push(Datum::Number(read_field(&atom, first, of)));
            Leads::On
        }
        None => Leads::Fail(6),
    }
}

/// Pops a number into a field of the atom at the centre. Failure 6.
#[inline]
pub fn store_field(running: &mut Activation, kind: u16, first: u8, width: u8, of: Kind) -> Leads
    requires { FieldFits first (num_type of width) 1 }
    ensures { Works (work kind (SetField first (num_type of width)) running.old) running.new result }
{
    let of = NumType { kind: of, width };
    match running.number() {
        Some(v) => match running.own(kind) {
            Some(atom) => {
                running.window.put(0, write_field(atom, first, of, v));
                Leads::On
            }
            None => Leads::Fail(6),
        },
        None => Leads::Lack,
    }
}

/// Pushes a field of the atom in a slot.
#[inline]
pub fn load_part(running: &mut Activation, s: u8, first: u8, width: u8, of: Kind) -> Leads
    requires fits { FieldFits first (num_type of width) 1 }
    requires room { length running.old.stack ≤ MOST_OPERANDS }
    ensures { (kind : ℕ) → Works (work kind (Part s first (num_type of width)) running.old) running.new result }
{
    let of = NumType { kind: of, width };
    match running.slot_atom(s) {
        Some(atom) => {
            running.push(Datum::Number(read_field(&atom, first, of)));
            Leads::On
        }
        None => Leads::Lack,
    }
}

/// The atom with a field set, unless it is of type 0.
#[inline]
fn with_part(atom: Atom, first: u8, of: NumType, v: Number) -> Atom
    requires { FieldFits first of 1 }
    ensures { result ≡ with_part atom first of.width (kept_bits of v) }
{
    if atom.kind() == 0 {
        atom
    } else {
        write_field(atom, first, of, v)
    }
}

/// Pops a number into a field of the atom in a slot.
#[inline]
pub fn store_part(running: &mut Activation, s: u8, first: u8, width: u8, of: Kind) -> Leads
    requires { FieldFits first (num_type of width) 1 }
    ensures { (kind : ℕ) → Works (work kind (SetPart s first (num_type of width)) running.old) running.new result }
{
    let of = NumType { kind: of, width };
    match running.number() {
        Some(v) => match running.slot_atom(s) {
            Some(atom) => {
                running.set_slot(s, Datum::Atom(with_part(atom, first, of, v)));
                Leads::On
            }
            None => Leads::Lack,
        },
        None => Leads::Lack,
    }
}

/// The first bit of an element of an array.
#[inline]
#[tactic(auto, using(crate::proofs::Fits::element_fits))]
fn element(first: u8, of: NumType, n: u8, i: u8) -> u8
    requires fits { FieldFits first of n }
    requires below { i < n }
    ensures value { result ≡ first + i * of.width }
    ensures fits { FieldFits result of 1 }
{
    first + i * of.width
}

/// Pops an index and pushes that element of an array of the atom at the centre. Failures 6, 7.
#[inline]
pub fn load_field_at(
    running: &mut Activation,
    kind: u16,
    first: u8,
    width: u8,
    of: Kind,
    n: u8,
) -> Leads
    requires fits { FieldFits first (num_type of width) n }
    requires room { length running.old.stack ≤ MOST_OPERANDS }
    ensures { Works (work kind (FieldAt first (num_type of width) n) running.old) running.new result }
{
    let of = NumType { kind: of, width };
    match running.number() {
        Some(v) => match running.own(kind) {
            Some(atom) => match index(v, n) {
                Some(i) => {
                    running.push(Datum::Number(read_field(&atom, element(first, of, n, i), of)));
                    Leads::On
                }
                None => Leads::Fail(7),
            },
            None => Leads::Fail(6),
        },
        None => Leads::Lack,
    }
}

/// Pops a number, then an index, and writes that element of an array of the atom at the centre.
/// Failures 6, 7.
#[inline]
pub fn store_field_at(
    running: &mut Activation,
    kind: u16,
    first: u8,
    width: u8,
    of: Kind,
    n: u8,
) -> Leads
    requires { FieldFits first (num_type of width) n }
    ensures { Works (work kind (SetFieldAt first (num_type of width) n) running.old) running.new result }
{
    let of = NumType { kind: of, width };
    match running.two() {
        Some((v, x)) => match running.own(kind) {
            Some(atom) => match index(v, n) {
                Some(i) => {
                    running
                        .window
                        .put(0, write_field(atom, element(first, of, n, i), of, x));
                    Leads::On
                }
                None => Leads::Fail(7),
            },
            None => Leads::Fail(6),
        },
        None => Leads::Lack,
    }
}

/// Pops an index and pushes that element of an array of the atom in a slot. Failure 7.
#[inline]
pub fn load_part_at(running: &mut Activation, s: u8, first: u8, width: u8, of: Kind, n: u8) -> Leads
    requires fits { FieldFits first (num_type of width) n }
    requires room { length running.old.stack ≤ MOST_OPERANDS }
    ensures { (kind : ℕ) → Works (work kind (PartAt s first (num_type of width) n) running.old) running.new result }
{
    let of = NumType { kind: of, width };
    match running.number() {
        Some(v) => match running.slot_atom(s) {
            Some(atom) => match index(v, n) {
                Some(i) => {
                    running.push(Datum::Number(read_field(&atom, element(first, of, n, i), of)));
                    Leads::On
                }
                None => Leads::Fail(7),
            },
            None => Leads::Lack,
        },
        None => Leads::Lack,
    }
}

/// Pops a number, then an index, and writes that element of an array of the atom in a slot.
/// Failure 7.
#[inline]
pub fn store_part_at(
    running: &mut Activation,
    s: u8,
    first: u8,
    width: u8,
    of: Kind,
    n: u8,
) -> Leads
    requires { FieldFits first (num_type of width) n }
    ensures { (kind : ℕ) → Works (work kind (SetPartAt s first (num_type of width) n) running.old) running.new result }
{
    let of = NumType { kind: of, width };
    match running.two() {
        Some((v, x)) => match running.slot_atom(s) {
            Some(atom) => match index(v, n) {
                Some(i) => {
                    running.set_slot(
                        s,
                        Datum::Atom(with_part(atom, element(first, of, n, i), of, x)),
                    );
                    Leads::On
                }
                None => Leads::Fail(7),
            },
            None => Leads::Lack,
        },
        None => Leads::Lack,
    }
}
