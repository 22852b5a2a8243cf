//! The elements of a set by their numbers.
ghost use Rattle.std.specs.Prelude.{◌≡◌, ◌≤◌, length};
ghost use Rattle.code_gen.specs.Compiling.{element_codes};
ghost use Rattle.ulam_names.specs.declared.limits.TheConstants.{MOST_CLASSES};
ghost use Rattle.element_set.specs.Sets.{element_names, element_number, program_of, set_value};

use crate::set::ElementSet;
use feast_base::Name;
use stack_code::Code;

impl ElementSet {
    /// The names of the elements, at most as many as there may be classes. The first element has the
    /// number 1.
    pub fn names(&self) -> &[Name]
        ensures value { result.now ≡ element_names (set_value self.now) }
        ensures few { length result.now ≤ MOST_CLASSES }
    {
        self.names.as_slice()
    }

    /// The codes of the elements, as many as names and in the same order.
    pub fn codes(&self) -> &[Code]
        ensures codes { result.now ≡ element_codes (program_of (set_value self.now)) }
        ensures each { length result.now ≡ length (element_names (set_value self.now)) }
    {
        self.codes.as_slice()
    }

    /// The number of the element of a name, None exactly when no element has it.
    pub fn number(&self, name: &[u8]) -> Option<u16>
        ensures { result ≡ element_number (set_value self.now) name.now }
    {
        self.numbers.number(name)
    }
}
