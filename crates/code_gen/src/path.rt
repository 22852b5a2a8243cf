//! What paths name, and which functions they call.
ghost use Rattle.std.specs.Prelude.{◌≡◌};
ghost use Rattle.ulam_meaning.specs.Paths.{field_spot, bit_of, through, spot, callee};
ghost use Rattle.code_gen.specs.Clipped.{word, clip_callee};
ghost use Rattle.code_gen.specs.Made.{IsSpot};
ghost use Rattle.code_gen.specs.Seen.{program_of, field_of, spot_of, callee_of, numbers_of, path_spot, path_callee};

use crate::classes::{Callee, Classes, Field, Scene, Span, Spot};
use crate::lookup::{field, first_bit};
use crate::piece::Key;
use ulam_tree::resolved::{Path, Step, Ty};

/// The first bit of a data member of a class whose own first bit is `base`.
fn bit_of(classes: &Classes, base: u32, class: u32, member: u32) -> u32
    ensures { result ≡ word (bit_of (program_of classes.now) base class member) }
{
    base.saturating_add(first_bit(classes, class, member))
}

/// A data member that begins at a bit: of the atom in a slot, or else of the acting element.
fn field_spot(slot: Option<u32>, first: u32, field: Field) -> Spot
    ensures { spot_of result ≡ field_spot (numbers_of slot) first (field_of field).length (field_of field).ty }
{
    match field.ty {
        Ty::Num { num } => {
            let span = Span {
                first,
                num,
                length: field.length,
            };
            match slot {
                None => Spot::Member { span },
                Some(slot) => Spot::Part { slot, span },
            }
        }
        Ty::Window => Spot::Window,
        _ => Spot::Nothing,
    }
}

/// What data members of data members name, from a class on whose first bit is `base`.
fn through(classes: &Classes, slot: Option<u32>, base: u32, steps: &[Step]) -> Spot
    ensures { IsSpot result (through (program_of classes.now) (numbers_of slot) base steps.now) }
{
    match steps {
        [Step::Member { class, member }] => {
            let first = bit_of(classes, base, *class, *member);
            field_spot(slot, first, field(classes, *class, *member))
        }
        [Step::Member { class, member }, rest @ ..] => {
            through(classes, slot, bit_of(classes, base, *class, *member), rest)
        }
        _ => Spot::Nothing,
    }
}

/// What a path names in a function that works on the bits of its class from `base` on. The atom in
/// a local begins at bit 0.
fn spot_from(classes: &Classes, base: u32, steps: &[Step]) -> Spot
    ensures { IsSpot result (spot (program_of classes.now) base steps.now) }
{
    match steps {
        [Step::Own] => Spot::Own,
        [Step::Own, rest @ ..] => through(classes, None, base, rest),
        [Step::Local { slot }] => Spot::Local { slot: *slot },
        [Step::Local { slot }, rest @ ..] => through(classes, Some(*slot), 0, rest),
        [Step::Constant { value, .. }, ..] => Spot::Constant { value: *value },
        _ => through(classes, None, base, steps),
    }
}

/// What a path names.
pub fn spot(scene: &Scene, path: &Path) -> Spot
    ensures { IsSpot result (path_spot scene.now path.now) }
{
    spot_from(scene.classes, scene.base, path.steps.as_slice())
}

/// What a path calls in a function that works on the bits of its class from `base` on.
fn callee_from(classes: &Classes, base: u32, steps: &[Step]) -> Callee
    ensures { callee_of result ≡ clip_callee (callee (program_of classes.now) base steps.now) }
{
    match steps {
        [Step::Own, rest @ ..] => callee_from(classes, base, rest),
        [Step::Member { class, member }, rest @ ..] => {
            callee_from(classes, bit_of(classes, base, *class, *member), rest)
        }
        [Step::Function { class, function }, ..] => Callee::Called {
            key: Key {
                class: *class,
                function: *function as usize,
                base,
            },
        },
        [Step::Built { call }, ..] => Callee::Built { call: *call },
        _ => Callee::Nothing,
    }
}

/// What a path calls.
pub fn callee(scene: &Scene, path: &Path) -> Callee
    ensures { callee_of result ≡ clip_callee (path_callee scene.now path.now) }
{
    callee_from(scene.classes, scene.base, path.steps.as_slice())
}
