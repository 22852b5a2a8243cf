//! The typed tree of a program.
ghost use Rattle.std.specs.Prelude.{◌≢◌, ◌≤◌, length, map, IfOk, IfErr, ◌-◌, ◌^◌};
ghost use Rattle.ulam_tree.specs.ResolvedViews.{resolved_class, resolved_member, resolved_program};
ghost use Rattle.ulam_tree.specs.TypedViews.{typed_class, typed_program};
ghost use Rattle.type_rules.specs.Programs as walk;
ghost use Rattle.type_rules.specs.ProgramTyping.{IsTypedProgram, HasNoTypedTree};
ghost use Rattle.ulam_types.specs.Results.{members_view, classes_view};
ghost use Rattle.ulam_types.specs.Shown.{sigs_view, Gives};
ghost use Rattle.type_rules.specs.Well.{IsWellProgram};
ghost use Rattle.ulam_types.specs.declared.fault.TypeFault.TheVariants.{NoMemory};

use crate::copy;
use crate::fault::TypeFault;
use crate::function::member;
use crate::scope::ClassSig;
use crate::sigs::class_sigs;
use atom_layout::Layout;
use std::alloc::Global;
use ulam_tree::resolved::{Class, Member, Program};
use ulam_tree::typed;
use ulam_tree::typed::Typed;

/// The members of a class.
fn members(
    alloc: Global,
    sigs: &[ClassSig],
    own: u32,
    raw: &[Member],
) -> Result<Vec<typed::Member>, TypeFault>
    ensures { Gives members_view result (walk.members (sigs_view sigs.now) own (map resolved_member raw.now)) }
{
    let mut found = Vec::new(alloc);
    for one in raw {
        let member = member(alloc, sigs, own, one)?;
        found.push(member)?;
    }
    Ok(found)
}

/// A class with the types of its members, or the first fault among them.
fn class(alloc: Global, sigs: &[ClassSig], own: u32, raw: &Class) -> Result<typed::Class, TypeFault>
    ensures { Gives typed_class result (walk.class (sigs_view sigs.now) own (resolved_class raw.now)) }
{
    let members = members(alloc, sigs, own, raw.members.as_slice())?;
    Ok(typed::Class {
        quark: raw.quark,
        word: copy::word(alloc, &raw.word)?,
        members,
    })
}

/// Classes with the types of their members, or the first fault among them.
fn classes(alloc: Global, sigs: &[ClassSig], raw: &[Class]) -> Result<Vec<typed::Class>, TypeFault>
    requires { length raw.now ≤ 2 ^ 32 - 1 }
    ensures { Gives classes_view result (walk.classes (sigs_view sigs.now) 0 (map resolved_class raw.now)) }
{
    let mut found = Vec::new(alloc);
    let mut own = 0;
    for one in raw {
        let class = class(alloc, sigs, own, one)?;
        found.push(class)?;
        own += 1;
    }
    Ok(found)
}

/// The typed tree, or the first fault.
fn find(alloc: Global, program: &Program) -> Result<Typed, TypeFault>
    requires { length program.now.classes.items ≤ 2 ^ 32 - 1 }
    ensures { Gives typed_program result (walk.program (resolved_program program.now)) }
{
    let raw = program.classes.as_slice();
    let sigs = class_sigs(alloc, raw)?;
    let classes = classes(alloc, sigs.as_slice(), raw)?;
    Ok(Typed { classes })
}

/// The typed tree of a program, or else its first fault: classes, functions and statements are
/// checked in the order of the text, and operands from left to right before their operator.
/// `NoMemory` if the tree can't be kept.
///
/// A program has a layout if its quarks and elements are narrow enough. That is checked before
/// types are, so a layout is needed here; no rule of types depends on it.
pub fn check(alloc: Global, program: &Program, _layout: &Layout) -> Result<Typed, TypeFault>
    requires { length program.now.classes.items ≤ 2 ^ 32 - 1 }
    ensures found { Gives typed_program result (walk.program (resolved_program program.now)) }
    ensures is { IfOk result (λ t. IsTypedProgram (resolved_program program.now) (typed_program t)) }
    ensures well { IfOk result (λ t. IsWellProgram (typed_program t)) }
    ensures none { IfErr result (λ e. e ≢ NoMemory → HasNoTypedTree (resolved_program program.now)) }
{
    find(alloc, program)
}
