//! What the classes of a program declare: data members, functions and type numbers.
ghost use Rattle.std.specs.Prelude.{◌≡◌, ◌<◌, ◌+◌, ◌-◌, ◌^◌, map, length, if◌then◌else◌};
ghost use Rattle.ulam_tree.specs.TypedViews.{typed_class, typed_member};
ghost use Rattle.atom_layout.specs.Layouts.{first_bit};
ghost use Rattle.ulam_meaning.specs.Programs.{members_of, fields, field_at, function_at, behave_of, number_of, type_number};
ghost use Rattle.code_gen.specs.Seen.{program_of, field_of, function_of};

use crate::classes::{Classes, Field, Function};
use ulam_tree::resolved::Ty;
use ulam_tree::typed::{Class, Member};

/// What is declared in a class.
fn members<'a>(classes: &Classes<'a>, class: u32) -> &'a [Member]
    ensures { map typed_member result.now ≡ members_of (program_of classes.now) class }
{
    match classes.typed.classes.get(class as usize) {
        None => &[],
        Some(found) => found.members.as_slice(),
    }
}

/// A data member by its class and its number there.
#[tactic(auto, unfolding(ulam_meaning::specs::Programs::field_at))]
pub fn field(classes: &Classes, class: u32, member: u32) -> Field
    ensures { field_of result ≡ field_at (program_of classes.now) class member }
{
    let all = members(classes, class);
    let mut left = member;
    for one in all {
        if let Member::Field { of, length, .. } = one {
            if left == 0 {
                return Field {
                    ty: of.ty,
                    length: *length,
                };
            }
            left -= 1;
        }
    }
    Field {
        ty: Ty::Nothing,
        length: 0,
    }
}

/// How many data members a class has.
fn field_count(classes: &Classes, class: u32) -> usize
    ensures { result ≡ length (fields (members_of (program_of classes.now) class)) }
{
    let all = members(classes, class);
    let mut count = 0;
    for one in all {
        if let Member::Field { .. } = one {
            count += 1;
        }
    }
    count
}

/// The first bit of a data member in the bits of its class, or the bit after all of them if there
/// is none with the number.
pub fn first_bit(classes: &Classes, class: u32, member: u32) -> u32
    ensures { result ≡ first_bit (program_of classes.now).layout class member }
{
    let count = field_count(classes, class);
    if (member as usize) < count {
        classes.layout.first(class, member)
    } else if 0 < count {
        classes.layout.bits(class)
    } else {
        0
    }
}

/// A function by its class and its number there.
#[tactic(auto, unfolding(ulam_meaning::specs::Programs::function_at))]
pub fn function<'a>(classes: &Classes<'a>, class: u32, number: usize) -> Function<'a>
    ensures { function_of result ≡ function_at (program_of classes.now) class number }
{
    let all = members(classes, class);
    let mut left = number;
    for one in all {
        if let Member::Function {
            of,
            word,
            params,
            body,
        } = one
        {
            if left == 0 {
                return Function {
                    name: word.name.bytes(),
                    params: params.as_slice(),
                    result: of.ty,
                    body: body.as_slice(),
                };
            }
            left -= 1;
        }
    }
    Function {
        name: &[],
        params: &[],
        result: Ty::Nothing,
        body: &[],
    }
}

/// Which of its functions is the `behave` of a class.
#[tactic(auto, unfolding(ulam_meaning::specs::Programs::behave_of))]
pub fn behave_of(classes: &Classes, class: u32) -> usize
    ensures { result ≡ behave_of (program_of classes.now) class }
{
    let all = members(classes, class);
    let mut number = 0;
    for one in all {
        if let Member::Function { word, .. } = one {
            if word.name.bytes() == b"behave".as_slice() {
                return number;
            }
            number += 1;
        }
    }
    number
}

/// How many elements there are with one more class.
fn with_class(class: &Class, before: u16) -> u16
    requires { before < 2 ^ 16 - 1 }
    ensures { result ≡ (if (typed_class class.now).quark then before else before + 1) }
{
    if class.quark { before } else { before + 1 }
}

/// The type number of an element by its class: how many elements there are up to it.
#[tactic(auto, unfolding(ulam_meaning::specs::Programs::number_of))]
fn number_of(classes: &Classes, class: u32) -> u16
    ensures { result ≡ number_of (program_of classes.now) class }
{
    let all = classes.typed.classes.as_slice();
    let mut number = 0;
    for k in 0..all.len() {
        if k > class as usize {
            return number;
        }
        number = with_class(&all[k], number);
    }
    number
}

/// The type number of a type: an element's, otherwise that of Empty.
pub fn type_number(classes: &Classes, ty: Ty) -> u16
    ensures { result ≡ type_number (program_of classes.now) ty }
{
    match ty {
        Ty::Class { class } => number_of(classes, class),
        _ => 0,
    }
}
