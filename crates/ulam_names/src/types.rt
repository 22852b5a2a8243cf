//! Types of a body.
ghost use Rattle.std.specs.Prelude.{◌≡◌, take, drop};
ghost use Rattle.ulam_names.specs.Scopes as spec;
ghost use Rattle.ulam_names.specs.BodyWalk as walk;
ghost use Rattle.ulam_names.specs.Shown.{IsAsFound};

use crate::basic::Basic;
use crate::fault::NameFault;
use crate::scope::{Context, Entry, slot_named};
use feast_base::Place;
use sat_math::{Kind, NumType};
use ulam_tree::resolved::{Named, Ty};
use ulam_tree::{TypeRef, Width, Word};

/// A built-in type that takes a width: one of the first five.
#[tactic(auto, unfolding(crate::specs::Scopes::built_in))]
fn sized_type(name: &[u8]) -> Option<Basic>
    ensures { result ≡ spec.beside name.now (take 5 spec.built_in) }
{
    if name == b"Int".as_slice() {
        Some(Basic::Sized(Kind::Int, 32))
    } else if name == b"Unsigned".as_slice() {
        Some(Basic::Sized(Kind::Unsigned, 32))
    } else if name == b"Bits".as_slice() {
        Some(Basic::Sized(Kind::Bits, 8))
    } else if name == b"Unary".as_slice() {
        Some(Basic::Sized(Kind::Unary, 32))
    } else if name == b"Bool".as_slice() {
        Some(Basic::Sized(Kind::Bool, 1))
    } else {
        None
    }
}

/// A built-in type that takes no width: one of the last five.
#[tactic(auto, unfolding(crate::specs::Scopes::built_in))]
fn whole_type(name: &[u8]) -> Option<Basic>
    ensures { result ≡ spec.beside name.now (drop 5 spec.built_in) }
{
    if name == b"Atom".as_slice() {
        Some(Basic::Whole(Ty::Atom))
    } else if name == b"Void".as_slice() {
        Some(Basic::Whole(Ty::Nothing))
    } else if name == b"Empty".as_slice() {
        Some(Basic::Whole(Ty::Empty))
    } else if name == b"EventWindow".as_slice() {
        Some(Basic::Whole(Ty::Window))
    } else if name == b"Random".as_slice() {
        Some(Basic::Whole(Ty::Random))
    } else {
        None
    }
}

/// A built-in type.
pub fn built_in(name: &[u8]) -> Option<Basic>
    ensures { result ≡ spec.beside name.now spec.built_in }
{
    sized_type(name).or(whole_type(name))
}

/// What a type's name stands for in a body.
pub fn basic_in(context: &Context, name: &[u8]) -> Option<Basic>
    ensures { result ≡ walk.basic_in context.now name.now }
{
    if let Some(num) = context.typedefs.get_before(name, context.typedefs_before) {
        return Some(Basic::Whole(Ty::Num { num: *num }));
    }
    if let Some(basic) = built_in(name) {
        return Some(basic);
    }
    match context.classes.number_of(name) {
        Some(class) => Some(Basic::Whole(Ty::Class { class })),
        None => None,
    }
}

/// The number of a constant that no local hides.
pub fn constant_in(context: &Context, entries: &[Entry], name: &[u8]) -> Option<i128>
    ensures { result ≡ walk.constant_in context.now entries.now name.now }
{
    if slot_named(entries, name).is_some() {
        return None;
    }
    match context.constants.get_before(name, context.constants_before) {
        Some(constant) => Some(constant.value),
        None => None,
    }
}

/// Whether a kind allows a width.
pub fn allows(kind: Kind, width: i128) -> bool
    ensures { result ≡ spec.allows kind width }
{
    let least = match kind {
        Kind::Int => 2,
        _ => 1,
    };
    let most = match kind {
        Kind::Bool => 1,
        _ => 64,
    };
    least <= width && width <= most
}

/// The number of a width.
pub fn width_value(context: &Context, entries: &[Entry], width: &Width) -> Result<i128, NameFault>
    ensures { IsAsFound result (walk.width_value context.now entries.now width.now) }
{
    match width {
        Width::Number { value } => Ok(i128::from(*value)),
        Width::Named { word } => match constant_in(context, entries, word.name.bytes()) {
            Some(value) => Ok(value),
            None => Err(NameFault::UnknownName(word.place)),
        },
    }
}

/// A type with a width.
fn sized_by(
    context: &Context,
    entries: &[Entry],
    place: Place,
    basic: Basic,
    width: &Option<Width>,
) -> Result<Ty, NameFault>
    ensures { IsAsFound result (walk.sized_by context.now entries.now place basic width.now) }
{
    match (basic, width) {
        (Basic::Whole(ty), None) => Ok(ty),
        (Basic::Whole(_), Some(_)) => Err(NameFault::BadWidth(place)),
        (Basic::Sized(kind, width), None) => Ok(Ty::Num {
            num: NumType { kind, width },
        }),
        (Basic::Sized(kind, _), Some(width)) => {
            let value = width_value(context, entries, width)?;
            if allows(kind, value) {
                Ok(Ty::Num {
                    num: NumType {
                        kind,
                        width: value as u8,
                    },
                })
            } else {
                Err(NameFault::BadWidth(place))
            }
        }
    }
}

/// A type in a body.
pub fn type_in(context: &Context, entries: &[Entry], of: &TypeRef) -> Result<Named, NameFault>
    ensures { IsAsFound result (walk.type_in context.now entries.now of.now) }
{
    let place = of.word.place;
    match basic_in(context, of.word.name.bytes()) {
        Some(basic) => {
            let ty = sized_by(context, entries, place, basic, &of.width)?;
            Ok(Named { ty, place })
        }
        None => Err(NameFault::UnknownName(place)),
    }
}

/// A type named without a width.
pub fn class_named(context: &Context, word: &Word) -> Result<Named, NameFault>
    ensures { IsAsFound result (walk.class_named context.now word.now) }
{
    let place = word.place;
    match basic_in(context, word.name.bytes()) {
        Some(Basic::Whole(ty)) => Ok(Named { ty, place }),
        Some(Basic::Sized(kind, width)) => Ok(Named {
            ty: Ty::Num {
                num: NumType { kind, width },
            },
            place,
        }),
        None => Err(NameFault::UnknownName(place)),
    }
}
