//! The program that files are resolved to.
ghost use Rattle.std.specs.Prelude.{◌≢◌, ◌≤◌, length, IfOk, IfErr};
ghost use Rattle.ulam_names.specs.ClassWalk as walk;
ghost use Rattle.ulam_names.specs.Classes.{program};
ghost use Rattle.ulam_names.specs.ClassRelation.{IsResolved, HaveNoResolution};
ghost use Rattle.ulam_names.specs.Files.{all_items};
ghost use Rattle.ulam_names.specs.Shown.{Gives};
ghost use Rattle.ulam_names.specs.declared.fault.NameFault.TheVariants.{NoMemory};
ghost use Rattle.ulam_names.specs.declared.limits.TheConstants.{MOST_CLASSES};
ghost use Rattle.ulam_tree.specs.ResolvedViews.{resolved_program};

use crate::class::{class_names, items};
use crate::cycle::none_cyclic;
use crate::fault::NameFault;
use crate::half::HalfClass;
use crate::table::Table;
use crate::whole::{all_behave, whole_classes};
use std::alloc::Global;
use ulam_tree::File;
use ulam_tree::resolved::Program;

/// What classes are resolved to whose bodies are not resolved yet, or the first fault.
fn whole<'a>(
    alloc: Global,
    known: &Table<'a, bool>,
    halves: &[HalfClass<'a>],
) -> Result<Program, NameFault>
    requires { length halves.now ≤ MOST_CLASSES }
    ensures { Gives resolved_program result (walk.whole_program known.now halves.now) }
{
    all_behave(halves)?;
    none_cyclic(alloc, halves)?;
    Ok(Program {
        classes: whole_classes(alloc, known, halves)?,
    })
}

/// What files are resolved to, or the first fault.
fn find(alloc: Global, files: &[File]) -> Result<Program, NameFault>
    ensures { Gives resolved_program result (program (all_items files.now)) }
{
    let known = class_names(alloc, files)?;
    let halves = items(alloc, &known, files)?;
    whole(alloc, &known, halves.as_slice())
}

/// What files are resolved to: all their classes in order, with each name as what it means. Else
/// the first fault in the order in which files are gone through: all class names; then the `use`
/// items and the members of each class; then elements without `behave`; then quarks that contain
/// themselves; then the bodies of functions; each in the order of the text. `NoMemory` if it
/// can't be kept.
///
/// The one tree that no text has, a path without a name and without `self`, is an unknown name at
/// line 0.
pub fn resolve(alloc: Global, files: &[File]) -> Result<Program, NameFault>
    ensures found { Gives resolved_program result (program (all_items files.now)) }
    ensures is { IfOk result (λ p. IsResolved (all_items files.now) (resolved_program p)) }
    ensures none { IfErr result (λ e. e ≢ NoMemory → HaveNoResolution (all_items files.now)) }
{
    find(alloc, files)
}
