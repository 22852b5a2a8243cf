//! Sets of elements, and how they are made.
ghost use Rattle.std.specs.Prelude.{◌≡◌, IfOk};
ghost use Rattle.ulam_tree.specs.TypedViews.{typed_program};
ghost use Rattle.code_gen.specs.Compiling.{element_codes};
ghost use Rattle.element_set.specs.Kept.{Fits, IsCompiled, IsKept, set_view};
ghost use Rattle.element_set.specs.Names.{AreNamed};
ghost use Rattle.element_set.specs.Value.{program_of};

use crate::names::element_names;
use crate::numbers::{Numbers, numbers_of};
use atom_layout::Layout;
use feast_base::{Name, NoMemory};
use stack_code::Code;
use std::alloc::Global;
use ulam_tree::typed::Typed;

/// The elements of some files: all classes of the files with their types, the layout of each, and
/// the code of each element. Contracts see a set as its classes and their layout, by `set_value`.
pub struct ElementSet {
    pub(crate) typed: Typed,
    pub(crate) layout: Layout,
    pub(crate) names: Vec<Name>,
    pub(crate) numbers: Numbers,
    pub(crate) codes: Vec<Code>,
    ghost kept: { IsKept (set_view typed layout) names.items numbers },
    ghost coded: { codes.items ≡ element_codes (program_of (set_view typed layout)) },
    ghost compiled: { ∥ IsCompiled (set_view typed layout) ∥₁ },
}

// Written by hand, not derived: so a caller drops it by one call.
impl Drop for ElementSet {
    fn drop(self) {
        let ElementSet {
            typed,
            layout,
            names,
            numbers,
            codes,
        } = self;
    }
}

impl ElementSet {
    /// The set of classes with their layout and the codes of their elements.
    pub(crate) fn of(
        alloc: Global,
        typed: Typed,
        layout: Layout,
        codes: Vec<Code>,
    ) -> Result<ElementSet, NoMemory>
        requires named { AreNamed (typed_program typed) }
        requires fits { Fits (typed_program typed) layout }
        requires coded { codes.items ≡ element_codes (program_of (set_view typed layout)) }
        requires compiled { IsCompiled (set_view typed layout) }
        ensures { IfOk result (λ s. set_view s.typed s.layout ≡ set_view typed layout) }
    {
        let names = element_names(alloc, typed.classes.as_slice())?;
        let numbers = numbers_of(alloc, names.as_slice())?;
        Ok(ElementSet {
            typed,
            layout,
            names,
            numbers,
            codes,
        })
    }
}
