//! What names mean in a body.
ghost use Rattle.std.specs.Prelude.{◌≡◌, map, option_map};
ghost use Rattle.ulam_names.specs.Scopes as spec;
ghost use Rattle.ulam_names.specs.Shown.{head_of, entry_of, entries_of, context_of};

use crate::basic::Value;
use crate::half::HalfClass;
use crate::table::Table;
use sat_math::NumType;
use ulam_tree::resolved::{Built, Step, Ty};

/// A local with its slot, or a name without one that an `as` shows as an element.
#[derive(Clone, Copy)]
pub struct Entry<'a> {
    pub name: &'a [u8],
    pub slot: Option<u32>,
    pub inside: Ty,
}

/// What the names in a body are looked up in, besides the locals.
#[derive(Clone, Copy)]
pub struct Context<'c, 'a> {
    pub heads: &'c [HalfClass<'a>],
    pub classes: &'c Table<'a, bool>,
    pub own: u32,
    pub typedefs: &'c Table<'a, NumType>,
    pub typedefs_before: usize,
    pub constants: &'c Table<'a, Value>,
    pub constants_before: usize,
    pub params: u32,
}

/// The last entry with a name.
pub fn last_named<'a>(entries: &[Entry<'a>], name: &[u8]) -> Option<Entry<'a>>
    ensures { option_map entry_of result ≡ spec.last_named name.now (entries_of entries.now) }
{
    for i in (0..entries.len()).rev() {
        if name == entries[i].name {
            return Some(entries[i]);
        }
    }
    None
}

/// A data member or function of a class.
pub fn in_class(class: u32, head: &HalfClass, name: &[u8]) -> Option<(Step, Ty)>
    ensures { result ≡ spec.in_class class (head_of head.now) name.now }
{
    match head.names.fields.find(name) {
        Some((member, of)) => Some((Step::Member { class, member }, *of)),
        None => match head.names.functions.number_of(name) {
            Some(function) => Some((Step::Function { class, function }, Ty::Nothing)),
            None => None,
        },
    }
}

/// A built-in function of the event window.
#[tactic(auto, unfolding(crate::specs::Scopes::of_window))]
pub fn of_window(name: &[u8]) -> Option<Built>
    ensures { result ≡ spec.beside name.now spec.of_window }
{
    if name == b"swap".as_slice() {
        Some(Built::Swap)
    } else if name == b"isLive".as_slice() {
        Some(Built::IsLive)
    } else if name == b"isEmpty".as_slice() {
        Some(Built::IsEmpty)
    } else {
        None
    }
}

/// A built-in function of `Random`.
#[tactic(auto, unfolding(crate::specs::Scopes::of_random))]
pub fn of_random(name: &[u8]) -> Option<Built>
    ensures { result ≡ spec.beside name.now spec.of_random }
{
    if name == b"create".as_slice() {
        Some(Built::Create)
    } else if name == b"oneIn".as_slice() {
        Some(Built::OneIn)
    } else {
        None
    }
}

/// A name of a path after the first, where the name before it has a type.
pub fn next_name(heads: &[HalfClass], inside: Ty, name: &[u8]) -> Option<(Step, Ty)>
    ensures { result ≡ spec.next_name (map head_of heads.now) inside name.now }
{
    match inside {
        Ty::Class { class } => match heads.get(class as usize) {
            Some(head) => in_class(class, head, name),
            None => None,
        },
        Ty::Window => match of_window(name) {
            Some(call) => Some((Step::Built { call }, Ty::Nothing)),
            None => None,
        },
        Ty::Random => match of_random(name) {
            Some(call) => Some((Step::Built { call }, Ty::Nothing)),
            None => None,
        },
        _ => None,
    }
}

/// Whether an entry is a local of this name.
fn is_local(entry: &Entry, name: &[u8]) -> bool
    ensures { result ≡ spec.is_local name.now (entry_of entry.now) }
{
    name == entry.name && entry.slot.is_some()
}

/// The slot of the last local with a name.
pub fn slot_named(entries: &[Entry], name: &[u8]) -> Option<u32>
    ensures { result ≡ spec.slot_named name.now (entries_of entries.now) }
{
    for i in (0..entries.len()).rev() {
        if is_local(&entries[i], name) {
            return entries[i].slot;
        }
    }
    None
}

/// A data member or function of the class that a body belongs to.
fn of_own_class(context: &Context, name: &[u8]) -> Option<(Step, Ty)>
    ensures { result ≡ spec.member_of_own (context_of context.now) name.now }
{
    match context.heads.get(context.own as usize) {
        Some(head) => in_class(context.own, head, name),
        None => None,
    }
}

/// A name that no local hides.
pub fn in_own_class(context: &Context, name: &[u8]) -> Option<(Step, Ty)>
    ensures { result ≡ spec.in_own_class (context_of context.now) name.now }
{
    match of_own_class(context, name) {
        Some(found) => Some(found),
        None => match context.constants.get_before(name, context.constants_before) {
            Some(constant) => Some((
                Step::Constant {
                    num: constant.num,
                    value: constant.value,
                },
                Ty::Nothing,
            )),
            None => None,
        },
    }
}

/// The first name of a path.
pub fn first_name(context: &Context, entries: &[Entry], name: &[u8]) -> Option<(Step, Ty)>
    ensures { result ≡ spec.first_name (context_of context.now) (entries_of entries.now) name.now }
{
    let (step, inside) = match slot_named(entries, name) {
        Some(slot) => (Step::Local { slot }, Ty::Nothing),
        None => in_own_class(context, name)?,
    };
    match last_named(entries, name) {
        Some(entry) => Some((step, entry.inside)),
        None => Some((step, inside)),
    }
}
