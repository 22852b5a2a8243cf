//! Quarks that contain themselves, found in rounds over all classes.
ghost use Rattle.std.specs.Prelude.{◌≡◌, ◌<◌, ◌≤◌, length, map, get_or, false, IfOk, IfErr};
ghost use Rattle.std.specs.List.{list_any};
ghost use Rattle.ulam_names.specs.ClassWalk as walk;
ghost use Rattle.ulam_names.specs.Rounds.{leads_by, field_part, field_parts, leads_row, row_after};
ghost use Rattle.ulam_names.specs.Shown.{IsAsFound, head_of};
ghost use Rattle.ulam_names.specs.declared.fault.NameFault.TheVariants.{NoMemory};
ghost use Rattle.ulam_names.specs.declared.limits.TheConstants.{MOST_CLASSES};
ghost use Rattle.ulam_tree.specs.Ways.{class_number};

use crate::fault::NameFault;
use crate::half::HalfClass;
use crate::table::Table;
use crate::ways::may_be_cyclic;
use std::alloc::Global;
use ulam_tree::resolved::Ty;

/// The mark of a class in a row.
fn mark(row: &[bool], class: u32) -> bool
    ensures { result ≡ get_or row.now class false }
{
    match row.get(class as usize) {
        Some(mark) => *mark,
        None => false,
    }
}

/// Whether a type is the goal, or a class that is marked in a row.
fn type_leads(row: &[bool], ty: Ty, goal: u32) -> bool
    ensures { result ≡ list_any (leads_by row.now goal) (class_number ty) }
{
    match ty {
        Ty::Class { class } => {
            if class == goal {
                return true;
            }
            mark(row, class)
        }
        _ => false,
    }
}

/// Whether the type of a data member is the goal, or a class that is marked in a row.
fn field_leads(row: &[bool], fields: &Table<Ty>, number: usize, goal: u32) -> bool
    ensures { result ≡ list_any (leads_by row.now goal) (field_part fields.now number) }
{
    match fields.at(number) {
        Some(ty) => type_leads(row, *ty, goal),
        None => false,
    }
}

/// Whether the type of any data member is the goal, or a class that is marked in a row.
fn fields_lead(row: &[bool], fields: &Table<Ty>, goal: u32) -> bool
    ensures { result ≡ list_any (leads_by row.now goal) (field_parts fields.now) }
{
    for number in 0..fields.len() {
        if field_leads(row, fields, number, goal) {
            return true;
        }
    }
    false
}

/// The row of the next round: which classes lead to the goal by one step more.
fn next_row(
    alloc: Global,
    classes: &[HalfClass],
    row: &[bool],
    goal: u32,
) -> Result<Vec<bool>, NameFault>
    ensures row { IfOk result (λ r. r.items ≡ leads_row row.now goal (map head_of classes.now)) }
    ensures memory { IfErr result (λ e. e ≡ NoMemory) }
{
    let mut next = Vec::new(alloc);
    for class in classes {
        next.push(fields_lead(row, &class.names.fields, goal))?;
    }
    Ok(next)
}

/// Which classes lead to the goal, after as many rounds as there are classes.
fn whole_row(alloc: Global, classes: &[HalfClass], goal: u32) -> Result<Vec<bool>, NameFault>
    ensures row { IfOk result (λ r. r.items ≡ row_after (length classes.now) (map head_of classes.now) goal) }
    ensures memory { IfErr result (λ e. e ≡ NoMemory) }
{
    let mut row = Vec::new(alloc);
    for _ in 0..classes.len() {
        row = next_row(alloc, classes, row.as_slice(), goal)?;
    }
    Ok(row)
}

/// Whether a class contains itself.
fn holds_itself(alloc: Global, classes: &[HalfClass], class: u32) -> Result<bool, NameFault>
    requires { class < length classes.now }
    ensures holds { IfOk result (λ r. r ≡ walk.holds_itself classes.now class) }
    ensures memory { IfErr result (λ e. e ≡ NoMemory) }
{
    let row = whole_row(alloc, classes, class)?;
    Ok(mark(row.as_slice(), class))
}

/// Refuses a quark that contains itself, with a search for each class.
fn each_apart(alloc: Global, classes: &[HalfClass]) -> Result<(), NameFault>
    requires { length classes.now ≤ MOST_CLASSES }
    ensures { IsAsFound result (walk.none_cyclic classes.now) }
{
    let mut number = 0;
    for class in classes {
        if holds_itself(alloc, classes, number)? {
            return Err(NameFault::CyclicQuark(class.word.place));
        }
        number += 1;
    }
    Ok(())
}

/// Refuses a quark that contains itself.
pub fn none_cyclic(alloc: Global, classes: &[HalfClass]) -> Result<(), NameFault>
    requires { length classes.now ≤ MOST_CLASSES }
    ensures { IsAsFound result (walk.none_cyclic classes.now) }
{
    if may_be_cyclic(alloc, classes)? {
        each_apart(alloc, classes)
    } else {
        Ok(())
    }
}
