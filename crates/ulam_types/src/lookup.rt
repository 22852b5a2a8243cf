//! What a path means, and what a value of a type can be assigned to.
ghost use Rattle.std.specs.Prelude.{◌≡◌, slice_get};
ghost use Rattle.type_rules.specs.Bodies as walk;
ghost use Rattle.type_rules.specs.Rows as row;
ghost use Rattle.type_rules.specs.Scopes as spec;
ghost use Rattle.ulam_types.specs.Shown.{class_view, function_view, here, Finds};

use crate::rows::fits_number;
use crate::scope::{ClassSig, FunctionSig, Scope};
use type_rules::FieldSig;
use ulam_tree::resolved::{Step, Ty};

/// The signature of a class, if there is one of this number.
fn class_at<'a>(scope: &Scope<'a>, class: u32) -> Option<&'a ClassSig>
    ensures { Finds (λ c. class_view c.now) result (spec.class_at (here scope.now) class) }
{
    scope.classes.get(class as usize)
}

/// Whether a class is an element.
fn is_element(scope: &Scope, class: u32) -> bool
    ensures { result ≡ spec.is_element (here scope.now) class }
{
    match class_at(scope, class) {
        None => false,
        Some(found) => !found.quark,
    }
}

/// Whether a value may have a type.
pub fn is_value(scope: &Scope, ty: Ty) -> bool
    ensures { result ≡ spec.is_value (here scope.now) ty }
{
    match ty {
        Ty::Num { .. } => true,
        Ty::Atom => true,
        Ty::Class { class } => is_element(scope, class),
        _ => false,
    }
}

/// A type, if it is one of values.
fn if_value(scope: &Scope, ty: Ty) -> Option<Ty>
    ensures { result ≡ spec.if_value (here scope.now) ty }
{
    if is_value(scope, ty) { Some(ty) } else { None }
}

/// The type of a local or a parameter, if its slot has a value.
fn slot_type(scope: &Scope, slot: u32) -> Option<Ty>
    ensures { result ≡ spec.slot_type (here scope.now) (slice_get scope.now.slots.now slot) }
{
    match scope.slots.get(slot as usize) {
        None => None,
        Some(ty) => if_value(scope, *ty),
    }
}

/// A data member of a class, if there are both.
fn field_at(scope: &Scope, class: u32, member: u32) -> Option<FieldSig>
    ensures { result ≡ spec.field_at (here scope.now) class member }
{
    match class_at(scope, class) {
        None => None,
        Some(found) => found.fields.get(member as usize).copied(),
    }
}

/// The type of a data member that is one number.
fn number_field(field: Option<FieldSig>) -> Option<Ty>
    ensures { result ≡ spec.number_field field }
{
    match field {
        None => None,
        Some(found) => match found.ty {
            Ty::Num { num } => {
                if found.length == 0 {
                    Some(Ty::Num { num })
                } else {
                    None
                }
            }
            _ => None,
        },
    }
}

/// The type of an item of a data member that has items.
fn item_field(field: Option<FieldSig>) -> Option<Ty>
    ensures { result ≡ spec.item_field field }
{
    match field {
        None => None,
        Some(found) => match found.ty {
            Ty::Window => Some(Ty::Atom),
            Ty::Num { num } => {
                if 0 < found.length {
                    Some(Ty::Num { num })
                } else {
                    None
                }
            }
            _ => None,
        },
    }
}

/// What a path ends with.
pub fn last_step(steps: &[Step]) -> Option<Step>
    ensures { result ≡ spec.last_step steps.now }
{
    steps.last().copied()
}

/// Whether a path begins with a local or a parameter.
pub fn begins_local(steps: &[Step]) -> bool
    ensures { result ≡ spec.begins_local steps.now }
{
    match steps {
        [Step::Local { .. }, ..] => true,
        _ => false,
    }
}

/// The type of a path as a value.
pub fn value_type(scope: &Scope, steps: &[Step]) -> Option<Ty>
    ensures { result ≡ spec.value_type (here scope.now) steps.now }
{
    match last_step(steps) {
        Some(Step::Own) => if_value(scope, Ty::Class { class: scope.class }),
        Some(Step::Local { slot }) => slot_type(scope, slot),
        Some(Step::Member { class, member }) => number_field(field_at(scope, class, member)),
        Some(Step::Constant { num, .. }) => Some(Ty::Num { num }),
        _ => None,
    }
}

/// The type of a path as a left side.
pub fn target_type(scope: &Scope, steps: &[Step]) -> Option<Ty>
    ensures { result ≡ spec.target_type (here scope.now) steps.now }
{
    match last_step(steps) {
        Some(Step::Local { slot }) => slot_type(scope, slot),
        Some(Step::Member { class, member }) => number_field(field_at(scope, class, member)),
        _ => None,
    }
}

/// The type of what square brackets give after a path.
pub fn item_type(scope: &Scope, steps: &[Step]) -> Option<Ty>
    ensures { result ≡ spec.item_type (here scope.now) steps.now }
{
    match last_step(steps) {
        Some(Step::Member { class, member }) => item_field(field_at(scope, class, member)),
        _ => None,
    }
}

/// A function of a class, if there are both.
pub fn function_at<'a>(scope: &Scope<'a>, class: u32, function: u32) -> Option<&'a FunctionSig>
    ensures { Finds (λ f. function_view f.now) result (spec.function_at (here scope.now) class function) }
{
    match class_at(scope, class) {
        None => None,
        Some(found) => found.functions.get(function as usize),
    }
}

/// Whether a type is `Atom` or an element.
pub fn is_atom(scope: &Scope, ty: Ty) -> bool
    ensures { result ≡ row.is_atom (here scope.now) ty }
{
    match ty {
        Ty::Atom => true,
        Ty::Class { class } => is_element(scope, class),
        _ => false,
    }
}

/// Whether a type is an element or `Empty`.
pub fn is_species(scope: &Scope, ty: Ty) -> bool
    ensures { result ≡ row.is_species (here scope.now) ty }
{
    match ty {
        Ty::Empty => true,
        Ty::Class { class } => is_element(scope, class),
        _ => false,
    }
}

/// The type of a new atom.
pub fn instance_type(ty: Ty) -> Ty
    ensures { result ≡ row.instance_type ty }
{
    match ty {
        Ty::Empty => Ty::Atom,
        ty => ty,
    }
}

/// Whether a type is this class.
fn same_class(ty: Ty, class: u32) -> bool
    ensures { result ≡ row.same_class ty class }
{
    match ty {
        Ty::Class { class: other } => other == class,
        _ => false,
    }
}

/// Whether a value of the second type can be assigned to the first.
pub fn assignable(scope: &Scope, to: Ty, ty: Ty) -> bool
    ensures { result ≡ row.assignable (here scope.now) to ty }
{
    match to {
        Ty::Num { num } => fits_number(num.kind, ty),
        Ty::Atom => is_atom(scope, ty),
        Ty::Class { class } => is_element(scope, class) && same_class(ty, class),
        _ => false,
    }
}

/// Whether a type is an element.
pub fn is_element_type(scope: &Scope, ty: Ty) -> bool
    ensures { result ≡ walk.is_element_type (here scope.now) ty }
{
    match ty {
        Ty::Class { class } => is_element(scope, class),
        _ => false,
    }
}

/// The slot that a path of one name means, if it is of type `Atom`.
pub fn atom_slot(scope: &Scope, steps: &[Step]) -> Option<u32>
    ensures { result ≡ walk.atom_slot (here scope.now) steps.now }
{
    match steps {
        [Step::Local { slot }] => match scope.slots.get(*slot as usize) {
            Some(Ty::Atom) => Some(*slot),
            _ => None,
        },
        _ => None,
    }
}
