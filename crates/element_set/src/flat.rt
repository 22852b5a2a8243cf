//! Files with flat classes, as far as names need them.
ghost use Rattle.std.specs.Prelude.{◌≡◌, ◌≢◌, length, None, Some, IfOk, IfErr, OnOk};
ghost use Rattle.ulam_heirs.specs.Faults.{files_fault};
ghost use Rattle.ulam_heirs.specs.Views.{files_of};
ghost use Rattle.ulam_heirs.specs.declared.fault.HeirsFault.TheVariants as fault;
ghost use Rattle.ulam_names.specs.Classes.{program};
ghost use Rattle.ulam_names.specs.Files.{all_items};
ghost use Rattle.element_set.specs.Told.{flat_row};

use std::alloc::Global;
use ulam_heirs::{Heads, HeirsFault, flatten, flatten_within};
use ulam_names::{MOST_CLASSES, MOST_MEMBERS};
use ulam_tree::{File, Item};

/// The least number of members that is too many for any class: of one of the three sorts there are
/// too many.
const ENOUGH_MEMBERS: usize = 3 * MOST_MEMBERS + 1;

/// How many classes some items have, and how many members these have together.
fn sizes(items: &[Item]) -> (usize, usize) {
    let mut classes = 0usize;
    let mut members = 0usize;
    for item in items {
        if let Item::Class { class } = item {
            classes = classes.saturating_add(1);
            members = members.saturating_add(class.members.len());
        }
    }
    (classes, members)
}

/// Whether files have no more classes than there may be, and all of these together fewer members
/// than are too many for one: then no flat class is too large.
fn are_few(files: &[File]) -> bool {
    let mut classes = 0usize;
    let mut members = 0usize;
    for file in files {
        let (more, longer) = sizes(file.items.as_slice());
        classes = classes.saturating_add(more);
        members = members.saturating_add(longer);
    }
    classes <= MOST_CLASSES && members < ENOUGH_MEMBERS
}

/// Files in which names find the same as in all flat files: these themselves where they are surely
/// small, and else no more of them than names look at. All of them may take memory by the square of
/// the files.
pub fn flat_files(alloc: Global, files: Vec<File>, heads: &[Heads]) -> Result<Vec<File>, HeirsFault>
    requires { length files.items ≡ length heads.now }
    ensures same { IfOk result (λ v. program (all_items v.items) ≡ program (flat_row (files_of files.items) heads.now)) }
    ensures sound { OnOk result (files_fault (files_of files.items) heads.now ≡ None) }
    ensures fault { IfErr result (λ e. e ≢ fault.NoMemory → files_fault (files_of files.items) heads.now ≡ Some e) }
{
    if are_few(files.as_slice()) {
        return flatten(alloc, files, heads);
    }
    flatten_within(alloc, files, heads, MOST_CLASSES, ENOUGH_MEMBERS)
}
