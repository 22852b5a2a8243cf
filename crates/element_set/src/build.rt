//! All files together, stage by stage.
ghost use Rattle.std.specs.Prelude.{◌≡◌, ◌<◌, ◌-◌, ◌^◌, length, map, None};
ghost use Rattle.std.specs.List.{All};
ghost use Rattle.ulam_names.specs.Files.{all_items};
ghost use Rattle.ulam_tree.specs.ResolvedViews.{resolved_program};
ghost use Rattle.ulam_tree.specs.TypedViews.{typed_program};
ghost use Rattle.atom_layout.specs.Layouts.{first_wide, layout_of};
ghost use Rattle.code_gen.specs.Compiling.{IsCompilable};
ghost use Rattle.element_set.specs.Kept.{Fits, set_view};
ghost use Rattle.element_set.specs.Names.{AreNamed, IsResolution};
ghost use Rattle.element_set.specs.Sets.{Builds, program_of, set_value};
ghost use Rattle.element_set.specs.Stages as stage;
ghost use Rattle.element_set.specs.Told.{Tells, trees_value};

use crate::fault::BuildFault;
use crate::flat::flat_files;
use crate::set::ElementSet;
use crate::trees::{Trees, read_trees};
use atom_layout::{Layout, layout};
use code_gen::compile;
use feast_base::Source;
use std::alloc::Global;
use ulam_names::resolve;
use ulam_tree::File;
use ulam_tree::resolved::Program;
use ulam_tree::typed::Typed;
use ulam_types::check;

/// The set of typed classes with their layout.
fn coded_set(alloc: Global, typed: Typed, layout: Layout) -> Result<ElementSet, BuildFault>
    requires named { AreNamed (typed_program typed) }
    requires fits { Fits (typed_program typed) layout }
    requires compilable { IsCompilable (program_of (set_view typed layout)) }
    ensures { Tells set_value (stage.limit_stage (set_view typed layout)) result }
{
    let codes = compile(alloc, &typed, &layout)?;
    let set = ElementSet::of(alloc, typed, layout, codes)?;
    Ok(set)
}

/// The set of a program with its layout.
fn typed_set(alloc: Global, program: Program, layout: Layout) -> Result<ElementSet, BuildFault>
    requires resolution { IsResolution (resolved_program program) }
    requires narrow { first_wide (resolved_program program) ≡ None }
    requires laid { layout ≡ layout_of (resolved_program program) }
    ensures { Tells set_value (stage.typed_set (resolved_program program) layout) result }
{
    let typed = check(alloc, &program, &layout)?;
    drop(program);
    coded_set(alloc, typed, layout)
}

/// The set of a program.
fn laid_set(alloc: Global, program: Program) -> Result<ElementSet, BuildFault>
    requires { IsResolution (resolved_program program) }
    ensures { Tells set_value (stage.laid_set (resolved_program program)) result }
{
    let layout = layout(alloc, &program)?;
    typed_set(alloc, program, layout)
}

/// The set of files whose classes are flat.
fn named_set(alloc: Global, files: Vec<File>) -> Result<ElementSet, BuildFault>
    ensures { Tells set_value (stage.named_set (all_items files.items)) result }
{
    let program = resolve(alloc, files.as_slice())?;
    drop(files);
    laid_set(alloc, program)
}

/// The set of files with what was taken out of their tokens.
fn flat_set(alloc: Global, trees: Trees) -> Result<ElementSet, BuildFault>
    requires { length trees.files.items ≡ length trees.heads.items }
    ensures { Tells set_value (stage.flat_set (trees_value trees)) result }
{
    let Trees { files, heads } = trees;
    let flat = flat_files(alloc, files, heads.as_slice())?;
    drop(heads);
    named_set(alloc, flat)
}

impl ElementSet {
    /// The set of the elements of files, in the order of their classes.
    ///
    /// # Errors
    /// `Refused` by the first stage that refuses: lexing and parsing, file by file (codes 10 to 13,
    /// 20 and 21); then, for all files, bases (37 to 39), names (30 to 36), the layout (40 and 41),
    /// types (50 to 56) and code (60). `NoMemory` if the set can't be kept.
    pub fn build(alloc: Global, files: &[Source]) -> Result<ElementSet, BuildFault>
        requires few { length files.now < 2 ^ 32 }
        requires short { All (λ f. length f.1 < 2 ^ 32 - 1) files.now }

        // The set of the files, or the refusal of the first stage that refuses them.
        ensures { Builds files.now result }
    {
        let trees = read_trees(alloc, files)?;
        flat_set(alloc, trees)
    }
}
