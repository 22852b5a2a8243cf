//! Rules of whole classes, and the bodies of functions.
ghost use Rattle.std.specs.Prelude.{◌≡◌, ◌≤◌, length, map, IfOk, IfErr};
ghost use Rattle.ulam_names.specs.ClassWalk as walk;
ghost use Rattle.ulam_names.specs.Classes.{is_behave, behaves};
ghost use Rattle.ulam_names.specs.Shown.{Gives, IsAsFound, each, each_statement, param_of, half_of, half_class, entries_of, context_of};
ghost use Rattle.ulam_names.specs.declared.fault.NameFault.TheVariants.{NoMemory as no_memory};
ghost use Rattle.feast_base.specs.declared.limits.TheConstants.{MOST_PARAMS};
ghost use Rattle.ulam_names.specs.declared.limits.TheConstants.{MOST_CLASSES};
ghost use Rattle.ulam_tree.specs.RawViews.{word_of};
ghost use Rattle.ulam_tree.specs.ResolvedViews.{resolved_class, resolved_member, resolved_param};

use crate::fault::NameFault;
use crate::half::{Half, HalfClass, HalfParam, Pending};
use crate::names::Names;
use crate::parts::inside_local;
use crate::scope::{Context, Entry};
use crate::statement::body;
use crate::table::Table;
use feast_base::{Name, NoMemory};
use std::alloc::Global;
use ulam_tree::Word;
use ulam_tree::resolved::{Class, Member, Param, Statement, Ty};

/// Whether a member is `Void behave()`.
fn is_behave(member: &Half) -> bool
    ensures { result ≡ is_behave (half_of member.now) }
{
    match member {
        Half::Field(..) => false,
        Half::Function(pending) => {
            pending.word.name.bytes() == b"behave".as_slice()
                && pending.of.ty == Ty::Nothing
                && pending.params.len() == 0
        }
    }
}

/// Whether a class is a quark, or has a function `Void behave()`.
fn behaves(class: &HalfClass) -> bool
    ensures { result ≡ behaves (half_class class.now) }
{
    if class.quark {
        return true;
    }
    for member in &class.members {
        if is_behave(member) {
            return true;
        }
    }
    false
}

/// Refuses an element without a function `Void behave()`.
pub fn all_behave(classes: &[HalfClass]) -> Result<(), NameFault>
    ensures { IsAsFound result (walk.all_behave classes.now) }
{
    for class in classes {
        if !behaves(class) {
            return Err(NameFault::NoBehave(class.word.place));
        }
    }
    Ok(())
}

/// A copy of a name.
fn copy(alloc: Global, word: &Word) -> Result<Word, NoMemory>
    ensures { IfOk result (λ w. word_of w ≡ word_of word.now) }
{
    Ok(Word {
        name: Name::new(alloc, word.name.bytes())?,
        place: word.place,
    })
}

/// Parameters as the first entries in the scope of a body.
fn param_entries<'a>(
    alloc: Global,
    heads: &[HalfClass],
    params: &[HalfParam<'a>],
) -> Result<Vec<Entry<'a>>, NameFault>
    requires { length params.now ≤ MOST_PARAMS }
    ensures entries { IfOk result (λ v. entries_of v.items ≡ walk.param_entries heads.now params.now) }
    ensures memory { IfErr result (λ e. e ≡ no_memory) }
{
    let mut entries = Vec::new(alloc);
    let mut slot: u32 = 0;
    for param in params {
        entries.push(Entry {
            name: param.word.name.bytes(),
            slot: Some(slot),
            inside: inside_local(heads, param.of.ty),
        })?;
        slot += 1;
    }
    Ok(entries)
}

/// Parameters with copies of their names.
fn whole_params(alloc: Global, params: &[HalfParam]) -> Result<Vec<Param>, NameFault>
    ensures params { IfOk result (λ v. each resolved_param v ≡ map param_of params.now) }
    ensures memory { IfErr result (λ e. e ≡ no_memory) }
{
    let mut whole = Vec::new(alloc);
    for param in params {
        whole.push(Param {
            of: param.of,
            word: copy(alloc, param.word)?,
        })?;
    }
    Ok(whole)
}

/// What the names in the body of a function are looked up in.
fn whole_context<'c, 'a>(
    known: &'c Table<'a, bool>,
    heads: &'c [HalfClass<'a>],
    own: u32,
    names: &'c Names<'a>,
    pending: &Pending<'a>,
) -> Context<'c, 'a>
    ensures context { context_of result ≡ walk.whole_context known.now heads.now own names.now pending.now }
    ensures few { result.params ≤ MOST_PARAMS }
{
    Context {
        heads,
        classes: known,
        own,
        typedefs: &names.typedefs,
        typedefs_before: pending.typedefs,
        constants: &names.constants,
        constants_before: pending.constants,
        params: pending.params.len() as u32,
    }
}

/// The body of a function.
fn whole_body<'a>(
    alloc: Global,
    context: &Context<'_, 'a>,
    pending: &Pending<'a>,
) -> Result<Vec<Statement>, NameFault>
    requires { context.now.params ≤ MOST_PARAMS }
    ensures { Gives each_statement result (walk.whole_body context.now pending.now) }
{
    let params = pending.params.len() as u32;
    let mut entries = param_entries(alloc, context.heads, pending.params.as_slice())?;
    let (body, _) = body(alloc, context, &mut entries, 0, params, pending.body)?;
    Ok(body)
}

/// A function with its body.
fn whole_function<'a>(
    alloc: Global,
    known: &Table<'a, bool>,
    heads: &[HalfClass<'a>],
    own: u32,
    names: &Names<'a>,
    pending: &Pending<'a>,
) -> Result<Member, NameFault>
    ensures { Gives resolved_member result (walk.whole_function known.now heads.now own names.now pending.now) }
{
    let context = whole_context(known, heads, own, names, pending);
    Ok(Member::Function {
        of: pending.of,
        word: copy(alloc, pending.word)?,
        params: whole_params(alloc, pending.params.as_slice())?,
        body: whole_body(alloc, &context, pending)?,
    })
}

/// A member with its body.
fn whole_member<'a>(
    alloc: Global,
    known: &Table<'a, bool>,
    heads: &[HalfClass<'a>],
    own: u32,
    names: &Names<'a>,
    half: &Half<'a>,
) -> Result<Member, NameFault>
    ensures { Gives resolved_member result (walk.whole_member known.now heads.now own names.now half.now) }
{
    match half {
        Half::Field(of, word, length) => Ok(Member::Field {
            of: *of,
            word: copy(alloc, word)?,
            length: *length,
        }),
        Half::Function(pending) => whole_function(alloc, known, heads, own, names, pending),
    }
}

/// The members of a class with their bodies.
fn whole_members<'a>(
    alloc: Global,
    known: &Table<'a, bool>,
    heads: &[HalfClass<'a>],
    own: u32,
    class: &HalfClass<'a>,
) -> Result<Vec<Member>, NameFault>
    ensures { Gives (each resolved_member) result (walk.whole_members known.now heads.now own class.now) }
{
    let mut found = Vec::new(alloc);
    for half in &class.members {
        let member = whole_member(alloc, known, heads, own, &class.names, half)?;
        found.push(member)?;
    }
    Ok(found)
}

/// A class with the bodies of its functions.
fn whole_class<'a>(
    alloc: Global,
    known: &Table<'a, bool>,
    heads: &[HalfClass<'a>],
    own: u32,
    class: &HalfClass<'a>,
) -> Result<Class, NameFault>
    ensures { Gives resolved_class result (walk.whole_class known.now heads.now own class.now) }
{
    let members = whole_members(alloc, known, heads, own, class)?;
    Ok(Class {
        quark: class.quark,
        word: copy(alloc, class.word)?,
        members,
    })
}

/// All classes with the bodies of their functions.
pub fn whole_classes<'a>(
    alloc: Global,
    known: &Table<'a, bool>,
    classes: &[HalfClass<'a>],
) -> Result<Vec<Class>, NameFault>
    requires { length classes.now ≤ MOST_CLASSES }
    ensures { Gives (each resolved_class) result (walk.whole_classes known.now classes.now) }
{
    let mut found = Vec::new(alloc);
    let mut own = 0;
    for class in classes {
        found.push(whole_class(alloc, known, classes, own, class)?)?;
        own += 1;
    }
    Ok(found)
}
