//! Classes of files, without the bodies of functions.
ghost use Rattle.std.specs.Prelude.{◌≡◌};
ghost use Rattle.ulam_names.specs.ClassWalk as walk;
ghost use Rattle.ulam_names.specs.Classes.{may_use};
ghost use Rattle.ulam_names.specs.Shown.{Gives, IsAsFound, AddsFound, halves, half_class};

use crate::class_scope::is_built_in;
use crate::fault::NameFault;
use crate::half::HalfClass;
use crate::limits::MOST_CLASSES;
use crate::member::members;
use crate::table::Table;
use std::alloc::Global;
use ulam_tree::{Class, File, Item};

/// Adds the name of a class.
fn new_class<'a>(known: &mut Table<'a, bool>, class: &'a Class) -> Result<(), NameFault>
    ensures { Gives (λ _. known.new) result (walk.new_class known.old class.now) }
{
    let name = class.word.name.bytes();
    if known.len() >= MOST_CLASSES {
        return Err(NameFault::TooMany(class.word.place));
    }
    if known.has(name) || is_built_in(name) {
        return Err(NameFault::DuplicateName(class.word.place));
    }
    known.add(name, class.quark)?;
    Ok(())
}

/// Adds the names of the classes of a file.
fn file_names<'a>(known: &mut Table<'a, bool>, items: &'a [Item]) -> Result<(), NameFault>
    ensures { Gives (λ _. known.new) result (walk.file_names known.old items.now) }
{
    for item in items {
        if let Item::Class { class } = item {
            new_class(known, class)?;
        }
    }
    Ok(())
}

/// The names of all classes, and whether each is a quark.
pub fn class_names<'a>(alloc: Global, files: &'a [File]) -> Result<Table<'a, bool>, NameFault>
    ensures { IsAsFound result (walk.class_names files.now) }
{
    let mut known = Table::new(alloc);
    for file in files {
        file_names(&mut known, file.items.as_slice())?;
    }
    Ok(known)
}

/// Whether a `use` may name a class.
fn may_use(known: &Table<bool>, name: &[u8]) -> bool
    ensures { result ≡ may_use known.now name.now }
{
    name == b"EventWindow".as_slice() || name == b"Random".as_slice() || known.has(name)
}

/// A class, without the bodies of its functions.
fn half<'a>(
    alloc: Global,
    known: &Table<bool>,
    class: &'a Class,
) -> Result<HalfClass<'a>, NameFault>
    ensures { Gives half_class result (walk.half_class known.now class.now) }
{
    let (names, members) = members(alloc, known, class.members.as_slice())?;
    Ok(HalfClass {
        quark: class.quark,
        word: &class.word,
        names,
        members,
    })
}

/// Adds what an item declares.
fn item<'a>(
    alloc: Global,
    known: &Table<bool>,
    found: &mut Vec<HalfClass<'a>>,
    raw: &'a Item,
) -> Result<(), NameFault>
    ensures { AddsFound (halves found.old) (halves found.new) result (walk.item known.now raw.now) }
{
    match raw {
        Item::Ulam { .. } => Ok(()),
        Item::Uses { word } => {
            if may_use(known, word.name.bytes()) {
                Ok(())
            } else {
                Err(NameFault::UnknownName(word.place))
            }
        }
        Item::Class { class } => {
            found.push(half(alloc, known, class)?)?;
            Ok(())
        }
    }
}

/// Adds the classes of a file.
fn file_items<'a>(
    alloc: Global,
    known: &Table<bool>,
    found: &mut Vec<HalfClass<'a>>,
    raw: &'a [Item],
) -> Result<(), NameFault>
    ensures { AddsFound (halves found.old) (halves found.new) result (walk.file_items known.now raw.now) }
{
    for one in raw {
        item(alloc, known, found, one)?;
    }
    Ok(())
}

/// All classes, without the bodies of their functions.
pub fn items<'a>(
    alloc: Global,
    known: &Table<bool>,
    files: &'a [File],
) -> Result<Vec<HalfClass<'a>>, NameFault>
    ensures { Gives halves result (walk.items known.now files.now) }
{
    let mut found = Vec::new(alloc);
    for file in files {
        file_items(alloc, known, &mut found, file.items.as_slice())?;
    }
    Ok(found)
}
