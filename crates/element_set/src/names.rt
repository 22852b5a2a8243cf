//! The names of elements.
ghost use Rattle.std.specs.Prelude.{◌≡◌, ◌++◌, map, IfOk, OnOk};
ghost use Rattle.ulam_tree.specs.TypedViews.{typed_class};
ghost use Rattle.element_set.specs.Names.{element_name, names_in};

use feast_base::{Name, NoMemory};
use std::alloc::Global;
use ulam_tree::typed::Class;

/// Adds the name of a class that is an element.
fn add(alloc: Global, class: &Class, names: &mut Vec<Name>) -> Result<(), NoMemory>
    ensures { OnOk result (names.new.items ≡ names.old.items ++ element_name (typed_class class.now)) }
{
    if !class.quark {
        let name = Name::new(alloc, class.word.name.bytes())?;
        names.push(name)?;
    }
    Ok(())
}

/// The names of the elements among classes, in order.
pub fn element_names(alloc: Global, classes: &[Class]) -> Result<Vec<Name>, NoMemory>
    ensures { IfOk result (λ v. v.items ≡ names_in (map typed_class classes.now)) }
{
    let mut names = Vec::new(alloc);
    for class in classes {
        add(alloc, class, &mut names)?;
    }
    Ok(names)
}
