//! Whether a class may contain itself, found in rounds over all classes.
//!
//! After a number of rounds a class is open if a chain of as many steps begins at it, each from a
//! class to one of a data member. If no class is open after some round, no class contains itself.
ghost use Rattle.std.specs.Prelude.{◌≡◌, Ok, map, false, IfOk, IfErr};
ghost use Rattle.std.specs.List.{list_any};
ghost use Rattle.ulam_names.specs.ClassWalk as walk;
ghost use Rattle.ulam_names.specs.Rounds.{open_by, field_part, field_parts, open_row, some_open};
ghost use Rattle.ulam_names.specs.Shown.{head_of};
ghost use Rattle.ulam_names.specs.declared.fault.NameFault.TheVariants.{NoMemory};
ghost use Rattle.ulam_tree.specs.Ways.{class_number};

use crate::fault::NameFault;
use crate::half::HalfClass;
use crate::table::Table;
use std::alloc::Global;
use ulam_tree::resolved::Ty;

/// Whether a class is open in a row. A class that the row does not reach is open.
fn is_open(row: &[bool], class: u32) -> bool
    ensures { result ≡ open_by row.now class }
{
    match row.get(class as usize) {
        Some(mark) => *mark,
        None => true,
    }
}

/// Whether a type is an open class.
fn type_open(row: &[bool], ty: Ty) -> bool
    ensures { result ≡ list_any (open_by row.now) (class_number ty) }
{
    match ty {
        Ty::Class { class } => is_open(row, class),
        _ => false,
    }
}

/// Whether the type of a data member is an open class.
fn field_open(row: &[bool], fields: &Table<Ty>, number: usize) -> bool
    ensures { result ≡ list_any (open_by row.now) (field_part fields.now number) }
{
    match fields.at(number) {
        Some(ty) => type_open(row, *ty),
        None => false,
    }
}

/// Whether the type of any data member is an open class.
fn fields_open(row: &[bool], fields: &Table<Ty>) -> bool
    ensures { result ≡ list_any (open_by row.now) (field_parts fields.now) }
{
    for number in 0..fields.len() {
        if field_open(row, fields, number) {
            return true;
        }
    }
    false
}

/// Which classes are open after one more round.
fn next_open(alloc: Global, classes: &[HalfClass], row: &[bool]) -> Result<Vec<bool>, NameFault>
    ensures row { IfOk result (λ r. r.items ≡ open_row row.now (map head_of classes.now)) }
    ensures memory { IfErr result (λ e. e ≡ NoMemory) }
{
    let mut next = Vec::new(alloc);
    for class in classes {
        next.push(fields_open(row, &class.names.fields))?;
    }
    Ok(next)
}

/// Whether a row has an open class.
fn any_open(row: &[bool]) -> bool
    ensures { result ≡ list_any (λ b. b) row.now }
{
    for mark in row {
        if *mark {
            return true;
        }
    }
    false
}

/// Whether a class may contain itself: whether some class is open after as many rounds as there are
/// classes. If not, none contains itself. The rounds end earlier when no class is open any more.
pub fn may_be_cyclic(alloc: Global, classes: &[HalfClass]) -> Result<bool, NameFault>
    ensures open { IfOk result (λ may. may ≡ some_open (map head_of classes.now)) }
    ensures none { IfOk result (λ may. may ≡ false → walk.none_cyclic classes.now ≡ Ok tt) }
    ensures memory { IfErr result (λ e. e ≡ NoMemory) }
{
    let mut row = Vec::new(alloc);
    for _ in 0..classes.len() {
        row = next_open(alloc, classes, row.as_slice())?;
        if !any_open(row.as_slice()) {
            return Ok(false);
        }
    }
    Ok(any_open(row.as_slice()))
}
