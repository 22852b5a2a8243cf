//! Loading and building element files.
ghost use Rattle.std.specs.Prelude.{◌≡◌, ◌≤◌, [], IfOk, length, slice_index_or};
ghost use Rattle.element_set.specs.Sets.{set_value};
ghost use Rattle.call_form.specs.Forms.{texts};
ghost use Rattle.feast_run.specs.Stages.{AreWithin, builds, load, load_all, set_of};
ghost use Rattle.feast_run.specs.Tellings.{Moves, Tells};
ghost use Rattle.feast_run.specs.declared.loading.TheConstants.{ELEMENT_LIMIT};
ghost use Rattle.call_form.specs.declared.form.TheConstants.{MOST_FILES};

use crate::halt::{Halt, Input, Refused};
use crate::loading::{ELEMENT_LIMIT, load_file};
use element_set::{BuildFault, ElementSet};
use feast_base::{Shelf, Source};
use std::alloc::Global;

/// Loads an element file.
fn load_source<'a, F: Shelf>(
    alloc: Global,
    shelf: &mut F,
    word: &'a str,
) -> Result<Source, Halt<'a>>
    ensures files { (F.state shelf.new).files ≡ (F.state shelf.old).files }
    ensures moves { Moves (F.state shelf.old) (F.state shelf.new) result }
    ensures tells { Tells (λ s. s.1) (load (F.state shelf.old).files ELEMENT_LIMIT word.now) result }
    ensures named { IfOk result (λ s. s.0 ≡ word.now) }
{
    let bytes = load_file(alloc, shelf, word, ELEMENT_LIMIT)?;
    Ok(Source::new(alloc, word, bytes)?)
}

/// Loads element files, in order.
fn load_files<'a, F: Shelf>(
    alloc: Global,
    shelf: &mut F,
    words: &'a [String],
) -> Result<Vec<Source>, Halt<'a>>
    ensures files { (F.state shelf.new).files ≡ (F.state shelf.old).files }
    ensures moves { Moves (F.state shelf.old) (F.state shelf.new) result }
    ensures tells { Tells (λ v. v.items) (load_all (F.state shelf.old).files (texts words.now)) result }
    ensures many { IfOk result (λ v. length v.items ≡ length words.now) }
    ensures short { IfOk result (λ v. AreWithin v.items) }
{
    let mut sources = Vec::new(alloc);
    for word in words {
        let source = load_source(alloc, shelf, word.as_str())?;
        sources.push(source)?;
    }
    Ok(sources)
}

/// The word of the file of a number, or no word if there is none.
fn word_of(words: &[String], file: u32) -> &str
    ensures { result.now ≡ slice_index_or (texts words.now) file [] }
{
    match words.get(file as usize) {
        Some(word) => word.as_str(),
        None => "",
    }
}

/// The set of loaded element files, whose words these are.
fn build_set<'a>(
    alloc: Global,
    words: &'a [String],
    sources: &[Source],
) -> Result<ElementSet, Halt<'a>>
    requires few { length sources.now ≤ MOST_FILES }
    requires short { AreWithin sources.now }
    ensures { Tells set_value (builds (texts words.now) sources.now) result }
{
    match ElementSet::build(alloc, sources) {
        Ok(set) => Ok(set),
        Err(BuildFault::Refused(refusal)) => Err(Halt::Refused(Refused {
            input: Input::Elements,
            word: word_of(words, refusal.place.file),
            refusal,
        })),
        Err(BuildFault::NoMemory) => Err(Halt::NoMemory),
    }
}

/// Loads and builds element files. All are loaded before the first is read.
pub fn load_set<'a, F: Shelf>(
    alloc: Global,
    shelf: &mut F,
    words: &'a [String],
) -> Result<ElementSet, Halt<'a>>
    requires { length words.now ≤ MOST_FILES }
    ensures files { (F.state shelf.new).files ≡ (F.state shelf.old).files }
    ensures moves { Moves (F.state shelf.old) (F.state shelf.new) result }
    ensures tells { Tells set_value (set_of (F.state shelf.old).files (texts words.now)) result }
{
    let sources = load_files(alloc, shelf, words)?;
    build_set(alloc, words, sources.as_slice())
}
