//! The first member that breaks a rule of overriding.
ghost use Rattle.std.specs.Prelude.{◌≡◌, Some, set, slice_get, IsTrue, IfOk, OnOk};
ghost use Rattle.std.specs.Option.{option_and_then};
ghost use Rattle.ulam_heirs.specs.Faults as faults;
ghost use Rattle.ulam_heirs.specs.Lines.{NoneIsOwnBase};
ghost use Rattle.ulam_heirs.specs.Opened.{Covers};
ghost use Rattle.ulam_heirs.specs.OpenedViews.{state_of, AreFaults, IsWalk, StaysOpen, ComesTo, GoesOn};
ghost use Rattle.ulam_heirs.specs.Views.{heir_of, heirs_of, base_numbers};

use crate::fault::HeirsFault;
use crate::heir::Heir;
use crate::line::{base_in, bases_of};
use crate::opened::{Opened, back_to, first_bad, nothing_open, open_class};
use crate::order::tree_order;
use feast_base::NoMemory;
use std::alloc::Global;

/// A class of the line that is open, and how many changes led to it.
#[derive(Clone, Copy)]
pub struct Step {
    pub class: usize,
    pub end: usize,
}

/// A walk through the classes: the line that is open, from its root on, and what was found of the
/// members of each class.
pub struct Walk<'a> {
    pub opened: Opened<'a>,
    pub line: Vec<Step>,
    pub found: Vec<Option<Option<HeirsFault>>>,
}

// By hand, so that callers drop by a call.
impl<'a> Drop for Walk<'a> {
    fn drop(self) {
        match self {
            Walk {
                opened,
                line,
                found,
            } => {}
        }
    }
}

/// No class is open, and nothing was found.
fn start<'a>(alloc: Global, heirs: &[Heir<'a>]) -> Result<Walk<'a>, NoMemory>
    ensures { IfOk result (λ w. IsWalk (heirs_of heirs.now) w) }
{
    let mut found = Vec::new(alloc);
    for _heir in heirs {
        found.push(None)?;
    }
    Ok(Walk {
        opened: nothing_open(alloc),
        line: Vec::new(alloc),
        found,
    })
}

/// Goes back up the line to the base of a class: whether that is in the line.
fn up_to(opened: &mut Opened, line: &mut Vec<Step>, base: Option<usize>) -> Result<bool, NoMemory>
    ensures stays { OnOk result (StaysOpen opened.old opened.new line.old line.new) }
    ensures table { IfOk result (λ found. IsTrue found → ComesTo opened.old opened.new line.old base) }
{
    'turns: for _turn in 0..line.len() {
        let Some(step) = line.pop() else {
            return Ok(false);
        };
        back_to(opened, step.end)?;
        if base == Some(step.class) {
            line.push(step)?;
            return Ok(true);
        }
    }
    back_to(opened, 0)?;
    Ok(base.is_none())
}

/// Notes what was found of a class.
fn note(found: &mut Vec<Option<Option<HeirsFault>>>, class: usize, fault: Option<HeirsFault>)
    ensures { found.new.items ≡ set found.old.items class (Some fault) }
{
    if class < found.len() {
        found[class] = Some(fault);
    }
}

/// Goes on to a class whose base is open.
fn go_on<'a>(
    alloc: Global,
    walk: &mut Walk<'a>,
    class: usize,
    heir: &Heir<'a>,
) -> Result<(), NoMemory>
    ensures { OnOk result (GoesOn walk.old walk.new class (heir_of heir.now)) }
{
    note(&mut walk.found, class, first_bad(&walk.opened, heir));
    open_class(alloc, &mut walk.opened, heir)?;
    let end = walk.opened.changes.len();
    walk.line.push(Step { class, end })?;
    Ok(())
}

/// Goes to a class, if its base is in the line.
fn visit<'a>(
    alloc: Global,
    heirs: &[Heir<'a>],
    bases: &[Option<usize>],
    walk: &mut Walk<'a>,
    class: usize,
) -> Result<(), NoMemory>
    requires bases { bases.now ≡ base_numbers (heirs_of heirs.now) }
    requires apart { NoneIsOwnBase (heirs_of heirs.now) }
    requires walk { IsWalk (heirs_of heirs.now) walk.old }
    ensures { OnOk result (IsWalk (heirs_of heirs.now) walk.new) }
{
    let Some(heir) = heirs.get(class) else {
        return Ok(());
    };
    if up_to(&mut walk.opened, &mut walk.line, base_in(bases, class))? {
        go_on(alloc, walk, class, heir)?;
    }
    Ok(())
}

/// A walk through the classes, of which each comes after its base.
fn walk_classes<'a>(
    alloc: Global,
    heirs: &[Heir<'a>],
    bases: &[Option<usize>],
) -> Result<Walk<'a>, NoMemory>
    requires bases { bases.now ≡ base_numbers (heirs_of heirs.now) }
    requires apart { NoneIsOwnBase (heirs_of heirs.now) }
    ensures { IfOk result (λ w. IsWalk (heirs_of heirs.now) w) }
{
    let order = tree_order(alloc, bases)?;
    let mut walk = start(alloc, heirs)?;
    for class in &order {
        visit(alloc, heirs, bases, &mut walk, *class)?;
    }
    Ok(walk)
}

/// The table of a line of classes.
fn open_line<'a>(alloc: Global, line: &[Heir<'a>]) -> Result<Opened<'a>, NoMemory>
    ensures { IfOk result (λ o. Covers (heirs_of line.now) (state_of o).table) }
{
    let mut opened = nothing_open(alloc);
    for heir in line {
        open_class(alloc, &mut opened, heir)?;
    }
    Ok(opened)
}

/// The first fault of the members of a class, from its bases alone.
fn fault_alone(
    alloc: Global,
    heirs: &[Heir],
    bases: &[Option<usize>],
    class: usize,
    heir: &Heir,
) -> Result<Option<HeirsFault>, NoMemory>
    requires { bases.now ≡ base_numbers (heirs_of heirs.now) }
    ensures { IfOk result (λ x. x ≡ faults.bad_override (heirs_of heirs.now) class (heir_of heir.now)) }
{
    let line = bases_of(alloc, heirs, bases, class)?;
    let opened = open_line(alloc, line.as_slice())?;
    Ok(first_bad(&opened, heir))
}

/// What was found of a class.
fn found_of(found: &[Option<Option<HeirsFault>>], class: usize) -> Option<Option<HeirsFault>>
    ensures { result ≡ option_and_then (λ x. x) (slice_get found.now class) }
{
    match found.get(class) {
        Some(fault) => *fault,
        None => None,
    }
}

/// The first fault of the members of a class, whether or not a walk came to it.
fn fault_of(
    alloc: Global,
    heirs: &[Heir],
    bases: &[Option<usize>],
    found: &[Option<Option<HeirsFault>>],
    class: usize,
    heir: &Heir,
) -> Result<Option<HeirsFault>, NoMemory>
    requires bases { bases.now ≡ base_numbers (heirs_of heirs.now) }
    requires found { AreFaults (heirs_of heirs.now) found.now }
    requires heir { slice_get (heirs_of heirs.now) class ≡ Some (heir_of heir.now) }
    ensures { IfOk result (λ x. x ≡ faults.bad_override (heirs_of heirs.now) class (heir_of heir.now)) }
{
    match found_of(found, class) {
        Some(fault) => Ok(fault),
        None => fault_alone(alloc, heirs, bases, class, heir),
    }
}

/// The first member that breaks a rule, given what a walk found.
fn first_found(
    alloc: Global,
    heirs: &[Heir],
    bases: &[Option<usize>],
    found: &[Option<Option<HeirsFault>>],
) -> Result<Option<HeirsFault>, NoMemory>
    requires bases { bases.now ≡ base_numbers (heirs_of heirs.now) }
    requires found { AreFaults (heirs_of heirs.now) found.now }
    ensures { IfOk result (λ x. x ≡ faults.first_by (faults.bad_override (heirs_of heirs.now)) 0 (heirs_of heirs.now)) }
{
    let mut number = 0;
    for heir in heirs {
        let fault = fault_of(alloc, heirs, bases, found, number, heir)?;
        if fault.is_some() {
            return Ok(fault);
        }
        number += 1;
    }
    Ok(None)
}

/// The first member that breaks a rule.
pub fn first_bad_override(
    alloc: Global,
    heirs: &[Heir],
    bases: &[Option<usize>],
) -> Result<Option<HeirsFault>, NoMemory>
    requires bases { bases.now ≡ base_numbers (heirs_of heirs.now) }
    requires apart { NoneIsOwnBase (heirs_of heirs.now) }
    ensures { IfOk result (λ x. x ≡ faults.first_by (faults.bad_override (heirs_of heirs.now)) 0 (heirs_of heirs.now)) }
{
    let walk = walk_classes(alloc, heirs, bases)?;
    first_found(alloc, heirs, bases, walk.found.as_slice())
}
