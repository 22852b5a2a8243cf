//! What a class has declared so far.
ghost use Rattle.std.specs.Prelude.{◌≡◌, ◌<◌, OnOk, false};
ghost use Rattle.ulam_names.specs.ClassWalk as walk;
ghost use Rattle.ulam_names.specs.Scopes.{declares_name, is_truth, no_names};
ghost use Rattle.ulam_names.specs.Shown.{IsAsFound};
ghost use Rattle.ulam_names.specs.NamesView.{names_view};
ghost use Rattle.ulam_names.specs.declared.limits.TheConstants.{MOST_MEMBERS};

use crate::basic::Value;
use crate::fault::NameFault;
use crate::limits::MOST_MEMBERS;
use crate::table::Table;
use sat_math::{Kind, NumType};
use std::alloc::Global;
use ulam_tree::resolved::Ty;
use ulam_tree::{Const, Word};

/// What a class has declared so far.
pub struct Names<'a> {
    pub typedefs: Table<'a, NumType>,
    pub constants: Table<'a, Value>,
    pub fields: Table<'a, Ty>,
    pub functions: Table<'a, ()>,
}

// Written by hand, not derived: so a caller drops it by one call.
impl Drop for Names<'_> {
    fn drop(self) {
        let Names {
            typedefs,
            constants,
            fields,
            functions,
        } = self;
    }
}

impl<'a> Names<'a> {
    /// Nothing declared.
    pub fn new(alloc: Global) -> Names<'a>
        ensures { names_view result ≡ no_names }
    {
        Names {
            typedefs: Table::new(alloc),
            constants: Table::new(alloc),
            fields: Table::new(alloc),
            functions: Table::new(alloc),
        }
    }
}

/// Whether a class has declared a name.
pub fn declares(names: &Names, name: &[u8]) -> bool
    ensures { result ≡ declares_name (names_view names.now) name.now }
{
    names.typedefs.has(name)
        || names.constants.has(name)
        || names.fields.has(name)
        || names.functions.has(name)
}

/// Refuses a name that may not be declared: there are too many, it is not free, or the class has
/// declared it.
pub fn new_name(names: &Names, count: usize, free: bool, word: &Word) -> Result<(), NameFault>
    ensures gives { IsAsFound result (walk.new_name names.now count free word.now) }
    ensures room { OnOk result (count < MOST_MEMBERS) }
    ensures new { OnOk result (declares_name (names_view names.now) word.now.name ≡ false) }
{
    if count >= MOST_MEMBERS {
        return Err(NameFault::TooMany(word.place));
    }
    if !free {
        return Err(NameFault::DuplicateName(word.place));
    }
    if declares(names, word.name.bytes()) {
        return Err(NameFault::DuplicateName(word.place));
    }
    Ok(())
}

/// Whether a kind is the kind of truth values.
pub fn is_truth(kind: Kind) -> bool
    ensures { result ≡ is_truth kind }
{
    match kind {
        Kind::Bool => true,
        _ => false,
    }
}

/// Whether a constant's value is a truth value, and its number.
pub fn const_value(names: &Names, value: &Const) -> Result<(bool, i128), NameFault>
    ensures { IsAsFound result (walk.const_value names.now value.now) }
{
    match value {
        Const::Number { minus, value, .. } => {
            if *minus {
                Ok((false, -i128::from(*value)))
            } else {
                Ok((false, i128::from(*value)))
            }
        }
        Const::Truth { value } => { if *value { Ok((true, 1)) } else { Ok((true, 0)) } }
        Const::Named { word } => match names.constants.get(word.name.bytes()) {
            Some(value) => Ok((is_truth(value.num.kind), value.value)),
            None => Err(NameFault::UnknownName(word.place)),
        },
    }
}
