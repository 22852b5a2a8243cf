//! How long the texts of a set are, so that memory for them is taken once. A length that is no
//! number of 64 bits counts as the greatest that is one. Each class and each code is printed by
//! itself and counted, in memory that the next one uses again.
ghost use Rattle.std.specs.Prelude.{◌≡◌, ◌≤◌, length, map};
ghost use Rattle.ulam_tree.specs.TypedViews.{typed_class};
ghost use Rattle.ulam_names.specs.declared.limits.TheConstants.{MOST_CLASSES};
ghost use Rattle.element_set.specs.CodeText.{codes_text};
ghost use Rattle.element_set.specs.Kept.{Fits, set_of_lists};
ghost use Rattle.element_set.specs.Printing.{HasLength};
ghost use Rattle.element_set.specs.Sets.{check_text};

use crate::print::{push_class, with_class};
use atom_layout::Layout;
use feast_base::{Name, NoMemory};
use stack_code::{Code, print};
use std::alloc::Global;
use ulam_tree::typed::Class;

/// The length of the text of classes. `NoMemory` if there is none for the text of one.
pub(crate) fn classes_len(
    alloc: Global,
    classes: &[Class],
    layout: &Layout,
) -> Result<usize, NoMemory>
    requires few { length classes.now ≤ MOST_CLASSES }
    requires fits { Fits (map typed_class classes.now) layout.now }
    ensures { HasLength result (check_text (set_of_lists classes.now layout.now)) }
{
    let mut shown = Vec::new(alloc);
    let mut len = 0usize;
    let mut own: u32 = 0;
    let mut before: u32 = 0;
    for class in classes {
        shown.clear();
        push_class(&mut shown, classes, layout, own, class, before)?;
        len = len.saturating_add(shown.len());
        before = with_class(class, before);
        own += 1;
    }
    Ok(len)
}

/// The length of the text of codes under their names. `NoMemory` if there is none for the text of
/// one.
pub(crate) fn codes_len(alloc: Global, names: &[Name], codes: &[Code]) -> Result<usize, NoMemory>
    ensures { HasLength result (codes_text names.now codes.now) }
{
    let mut listing = Vec::new(alloc);
    let mut len = 0usize;
    for (name, code) in names.iter().zip(codes) {
        listing.clear();
        print(code, name, &mut listing)?;
        len = len.saturating_add(listing.len());
    }
    Ok(len)
}
