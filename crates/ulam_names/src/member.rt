//! Members of classes.
ghost use Rattle.std.specs.Prelude.{◌≡◌, map};
ghost use Rattle.ulam_names.specs.ClassWalk as walk;
ghost use Rattle.ulam_names.specs.Scopes.{is_among};
ghost use Rattle.ulam_names.specs.Shown.{Gives, param_of, param_names, so_far, only, with_half};
ghost use Rattle.ulam_tree.specs.declared.raw.Member.TheVariants.{Typedef, Constant, Field};

use crate::basic::Value;
use crate::class_scope::{
    array_length, is_built_in, may_be_member, member_type, number_type, takes_value,
};
use crate::fault::NameFault;
use crate::half::{Half, HalfParam, Params, Pending};
use crate::names::{Names, const_value, new_name};
use crate::table::Table;
use feast_base::MOST_PARAMS;
use std::alloc::Global;
use std::rc::Rc;
use ulam_tree::{Const, Member, Param, Statement, TypeRef, Width, Word};

/// Whether a parameter has a name.
fn has_param(params: &[HalfParam], name: &[u8]) -> bool
    ensures { result ≡ is_among name.now (param_names params.now) }
{
    for param in params {
        if name == param.word.name.bytes() {
            return true;
        }
    }
    false
}

/// Parameters.
fn params<'a>(
    alloc: Global,
    known: &Table<bool>,
    names: &Names,
    raw: &'a [Param],
) -> Result<Params<'a>, NameFault>
    ensures { Gives (λ v. map param_of v) result (walk.params_of known.now names.now raw.now) }
{
    let mut found = Params::new(alloc);
    for param in raw {
        let of = member_type(known, names, &param.of)?;
        if found.len() >= MOST_PARAMS {
            return Err(NameFault::TooMany(param.word.place));
        }
        if has_param(found.as_slice(), param.word.name.bytes()) {
            return Err(NameFault::DuplicateName(param.word.place));
        }
        found.push(HalfParam {
            of,
            word: &param.word,
        })?;
    }
    Ok(found)
}

/// Declares a typedef.
fn typedef<'a>(
    known: &Table<bool>,
    names: &mut Names<'a>,
    of: &TypeRef,
    word: &'a Word,
) -> Result<(), NameFault>
    ensures { Gives (only names.new) result (walk.member known.now names.old (Typedef of.now word.now)) }
{
    let num = number_type(member_type(known, names, of)?)?;
    let count = names.typedefs.len() + names.constants.len();
    new_name(names, count, !is_built_in(word.name.bytes()), word)?;
    names.typedefs.add(word.name.bytes(), num)?;
    Ok(())
}

/// Declares a constant.
fn constant<'a>(
    known: &Table<bool>,
    names: &mut Names<'a>,
    of: &TypeRef,
    word: &'a Word,
    value: &Const,
) -> Result<(), NameFault>
    ensures { Gives (only names.new) result (walk.member known.now names.old (Constant of.now word.now value.now)) }
{
    let num = number_type(member_type(known, names, of)?)?;
    let count = names.typedefs.len() + names.constants.len();
    new_name(names, count, true, word)?;
    let (truth, value) = const_value(names, value)?;
    if !takes_value(num, truth, value) {
        return Err(NameFault::BadConstant(word.place));
    }
    names
        .constants
        .add(word.name.bytes(), Value { num, value })?;
    Ok(())
}

/// Declares a data member.
fn field<'a>(
    known: &Table<bool>,
    names: &mut Names<'a>,
    of: &TypeRef,
    word: &'a Word,
    length: &Option<Width>,
) -> Result<Half<'a>, NameFault>
    ensures { Gives (with_half names.new) result (walk.member known.now names.old (Field of.now word.now length.now)) }
{
    let named = member_type(known, names, of)?;
    if !may_be_member(known, named.ty, length.is_some()) {
        return Err(NameFault::BadWidth(named.place));
    }
    new_name(names, names.fields.len(), true, word)?;
    let length = array_length(known, names, word.place, length)?;
    names.fields.add(word.name.bytes(), named.ty)?;
    Ok(Half::Field(named, word, length))
}

/// A function as it is written.
#[derive(Clone, Copy)]
struct Written<'a> {
    of: &'a TypeRef,
    word: &'a Word,
    params: &'a [Param],
    body: &'a [Statement],
}

/// Declares a function.
fn function<'a>(
    alloc: Global,
    known: &Table<bool>,
    names: &mut Names<'a>,
    raw: Written<'a>,
) -> Result<Half<'a>, NameFault>
    ensures { Gives (with_half names.new) result (walk.function known.now names.old raw.entry) }
{
    let of = member_type(known, names, raw.of)?;
    new_name(names, names.functions.len(), true, raw.word)?;
    let params = params(alloc, known, names, raw.params)?;
    names.functions.add(raw.word.name.bytes(), ())?;
    Ok(Half::Function(Pending {
        of,
        word: raw.word,
        params,
        body: raw.body,
        typedefs: names.typedefs.len(),
        constants: names.constants.len(),
    }))
}

/// Declares a member.
fn member<'a>(
    alloc: Global,
    known: &Table<bool>,
    names: &mut Names<'a>,
    found: &mut Vec<Half<'a>>,
    raw: &'a Member,
) -> Result<(), NameFault>
    ensures { Gives (λ _. so_far (names.new, found.new)) result (walk.one_more known.now names.old found.old raw.now) }
{
    match raw {
        Member::Typedef { of, word } => typedef(known, names, of, word),
        Member::Constant { of, word, value } => constant(known, names, of, word, value),
        Member::Field { of, word, length } => {
            found.push(field(known, names, of, word, length)?)?;
            Ok(())
        }
        Member::Function {
            of,
            word,
            params,
            body,
        } => {
            let written = Written {
                of,
                word,
                params: params.as_slice(),
                body: body.as_slice(),
            };
            found.push(function(alloc, known, names, written)?)?;
            Ok(())
        }
    }
}

/// The members of a class, and what it declares.
pub fn members<'a>(
    alloc: Global,
    known: &Table<bool>,
    raw: &'a [Rc<Member>],
) -> Result<(Names<'a>, Vec<Half<'a>>), NameFault>
    ensures { Gives so_far result (walk.members known.now raw.now) }
{
    let mut names = Names::new(alloc);
    let mut found = Vec::new(alloc);
    for one in raw {
        member(alloc, known, &mut names, &mut found, one)?;
    }
    Ok((names, found))
}
