//! The plain instructions on numbers, slots and sites: a function for each shape.

ghost use Rattle.std.specs.Prelude.{◌≤◌, ℕ, length, pos, IsTrue};
ghost use Rattle.sat_math.specs.Numbers.{cast};
ghost use Rattle.sat_math.specs.Operations.{one_in};
ghost use Rattle.window_sites.specs.Window.{live_at, is_empty_at};
ghost use Rattle.stack_code.specs.Sorts.{Give, One, Two, Load, Store, Drop, Own, Site, SetSite, Exchange, Ask, Draw, Same, Double, num_type};
ghost use Rattle.stack_code.specs.Machine.{work};
ghost use Rattle.stack_code.specs.Valid.{type_fits};
ghost use Rattle.stack_code.specs.Shapes.{binary_of, BinaryFits, unary_of, UnaryFits};
ghost use Rattle.event_machine.specs.Works.{Works};
ghost use Rattle.stack_code.specs.declared.limits.TheConstants.{MOST_OPERANDS};

use crate::activation::Activation;
use crate::ending::Leads;
use crate::numbers::{apply_one, apply_two, bound, of_bool, of_word, site};
use datum::{Datum, Number};
use sat_math::{Kind, NumType};
use stack_code::{BinaryOp, UnaryOp};

/// Pushes a datum.
#[inline]
pub fn give(running: &mut Activation, x: Datum) -> Leads
    requires { length running.old.stack ≤ MOST_OPERANDS }
    ensures { (kind : ℕ) → Works (work kind (Give x) running.old) running.new result }
{
    running.push(x);
    Leads::On
}

/// Applies an operator to one number.
#[inline]
pub fn one(running: &mut Activation, op: UnaryOp) -> Leads
    requires fits { UnaryFits op }
    requires room { length running.old.stack ≤ MOST_OPERANDS }
    ensures { (kind : ℕ) → Works (work kind (One (unary_of op)) running.old) running.new result }
{
    match running.number() {
        Some(a) => {
            running.push(Datum::Number(apply_one(op, a)));
            Leads::On
        }
        None => Leads::Lack,
    }
}

/// Converts a number to a type.
#[inline]
pub fn fit(running: &mut Activation, of: Kind, width: u8) -> Leads
    requires fits { IsTrue (type_fits (num_type of width)) }
    requires room { length running.old.stack ≤ MOST_OPERANDS }
    ensures { (kind : ℕ) → Works (work kind (One (cast (num_type of width))) running.old) running.new result }
{
    one(running, UnaryOp::Fit(NumType { kind: of, width }))
}

/// Applies an operator to two numbers. Failure 3 for a division by 0.
#[inline]
pub fn two(running: &mut Activation, op: BinaryOp) -> Leads
    requires fits { BinaryFits op }
    requires room { length running.old.stack ≤ MOST_OPERANDS }
    ensures { (kind : ℕ) → Works (work kind (Two (binary_of op)) running.old) running.new result }
{
    match running.two() {
        Some((a, b)) => match apply_two(op, a, b) {
            Some(v) => {
                running.push(Datum::Number(v));
                Leads::On
            }
            None => Leads::Fail(3),
        },
        None => Leads::Lack,
    }
}

/// Pushes the value of a slot.
#[inline]
pub fn load(running: &mut Activation, s: u8) -> Leads
    requires { length running.old.stack ≤ MOST_OPERANDS }
    ensures { (kind : ℕ) → Works (work kind (Load s) running.old) running.new result }
{
    match running.slot(s) {
        Some(x) => {
            running.push(x);
            Leads::On
        }
        None => Leads::Lack,
    }
}

/// Pops an operand into a slot.
#[inline]
pub fn store(running: &mut Activation, s: u8) -> Leads
    ensures { (kind : ℕ) → Works (work kind (Store s) running.old) running.new result }
{
    match running.any() {
        Some(x) => {
            running.set_slot(s, x);
            Leads::On
        }
        None => Leads::Lack,
    }
}

/// Pops two sites and swaps their atoms. Failure 4.
#[inline]
pub fn exchange(running: &mut Activation) -> Leads
    ensures { (kind : ℕ) → Works (work kind Exchange running.old) running.new result }
{
    match running.two() {
        Some((i, j)) => match site(i) {
            Some(m) => match site(j) {
                Some(n) => {
                    running.window.swap(m, n);
                    Leads::On
                }
                None => Leads::Fail(4),
            },
            None => Leads::Fail(4),
        },
        None => Leads::Lack,
    }
}

/// Pops an operand.
#[inline]
pub fn drop_top(running: &mut Activation) -> Leads
    ensures { (kind : ℕ) → Works (work kind Drop running.old) running.new result }
{
    match running.any() {
        Some(_) => Leads::On,
        None => Leads::Lack,
    }
}

/// Pushes the atom at the centre. Failure 6.
#[inline]
pub fn own(running: &mut Activation, kind: u16) -> Leads
    requires { length running.old.stack ≤ MOST_OPERANDS }
    ensures { Works (work kind Own running.old) running.new result }
{
    match running.own(kind) {
        Some(atom) => {
            running.push(Datum::Atom(atom));
            Leads::On
        }
        None => Leads::Fail(6),
    }
}

/// Pops a site and pushes its atom. Failure 4.
#[inline]
pub fn load_site(running: &mut Activation) -> Leads
    requires { length running.old.stack ≤ MOST_OPERANDS }
    ensures { (kind : ℕ) → Works (work kind Site running.old) running.new result }
{
    match running.number() {
        Some(i) => match site(i) {
            Some(n) => {
                let atom = running.window.get(n);
                running.push(Datum::Atom(atom));
                Leads::On
            }
            None => Leads::Fail(4),
        },
        None => Leads::Lack,
    }
}

/// Pops an atom, then a site, and puts the atom there. Failure 4.
#[inline]
pub fn store_site(running: &mut Activation) -> Leads
    ensures { (kind : ℕ) → Works (work kind SetSite running.old) running.new result }
{
    match running.atom() {
        Some(atom) => match running.number() {
            Some(i) => match site(i) {
                Some(n) => {
                    running.window.put(n, atom);
                    Leads::On
                }
                None => Leads::Fail(4),
            },
            None => Leads::Lack,
        },
        None => Leads::Lack,
    }
}

/// Pops a site and pushes whether it is live. Failure 4.
#[inline]
pub fn is_live(running: &mut Activation) -> Leads
    requires { length running.old.stack ≤ MOST_OPERANDS }
    ensures { (kind : ℕ) → Works (work kind (Ask live_at) running.old) running.new result }
{
    match running.number() {
        Some(i) => match site(i) {
            Some(n) => {
                let live = running.window.is_live(n);
                running.push(Datum::Number(of_bool(live)));
                Leads::On
            }
            None => Leads::Fail(4),
        },
        None => Leads::Lack,
    }
}

/// Pops a site and pushes whether its atom is of type 0. Failure 4.
#[inline]
pub fn is_empty(running: &mut Activation) -> Leads
    requires { length running.old.stack ≤ MOST_OPERANDS }
    ensures { (kind : ℕ) → Works (work kind (Ask is_empty_at) running.old) running.new result }
{
    match running.number() {
        Some(i) => match site(i) {
            Some(n) => {
                let empty = running.window.get(n).kind() == 0;
                running.push(Datum::Number(of_bool(empty)));
                Leads::On
            }
            None => Leads::Fail(4),
        },
        None => Leads::Lack,
    }
}

/// Pops a bound and pushes the next random word modulo it. Failure 5.
#[inline]
pub fn create(running: &mut Activation) -> Leads
    requires { length running.old.stack ≤ MOST_OPERANDS }
    ensures { (kind : ℕ) → Works (work kind (Draw pos) running.old) running.new result }
{
    match running.number() {
        Some(v) => match bound(v) {
            Some(n) => {
                let r = running.draws.below(n);
                running.push(Datum::Number(of_word(r)));
                Leads::On
            }
            None => Leads::Fail(5),
        },
        None => Leads::Lack,
    }
}

/// Pops a bound and pushes whether the next random word modulo it is 0. Failure 5.
#[inline]
pub fn one_in(running: &mut Activation) -> Leads
    requires { length running.old.stack ≤ MOST_OPERANDS }
    ensures { (kind : ℕ) → Works (work kind (Draw one_in) running.old) running.new result }
{
    match running.number() {
        Some(v) => match bound(v) {
            Some(n) => {
                let r = running.draws.below(n);
                running.push(Datum::Number(of_bool(r == 0)));
                Leads::On
            }
            None => Leads::Fail(5),
        },
        None => Leads::Lack,
    }
}

/// Pops an atom and pushes whether it is of a type.
#[inline]
pub fn same(running: &mut Activation, k: u16) -> Leads
    requires { length running.old.stack ≤ MOST_OPERANDS }
    ensures { (kind : ℕ) → Works (work kind (Same k) running.old) running.new result }
{
    match running.atom() {
        Some(atom) => {
            running.push(Datum::Number(of_bool(atom.kind() == k)));
            Leads::On
        }
        None => Leads::Lack,
    }
}

/// Pops a number and pushes it twice.
#[inline]
pub fn double(running: &mut Activation) -> Leads
    requires { length running.old.stack ≤ MOST_OPERANDS }
    ensures { (kind : ℕ) → Works (work kind Double running.old) running.new result }
{
    match running.number() {
        Some(v) => {
            running.push(Datum::Number(v));
            running.push(Datum::Number(v));
            Leads::On
        }
        None => Leads::Lack,
    }
}
