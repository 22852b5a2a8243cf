//! The elements of a code file.
ghost use Rattle.std.specs.Prelude.{◌≡◌, length};
ghost use Rattle.code_file.specs.Form.{codes_of, elements, names_of};

use feast_base::Name;
use stack_code::Code;
use std::marker::Model;

/// The elements of a code file, each with a name and a code. The first has type number 1.
#[derive(Drop)]
pub struct CodeSet {
    names: Vec<Name>,
    codes: Vec<Code>,
}

impl Model for CodeSet {
    ghost use Rattle.std.specs.Prelude.{◌≡◌, length};
    ghost use Rattle.code_file.specs.Form.{CodesValue, elements};

    ghost Value = { CodesValue };

    ghost view = { λ s. elements s.names.items s.codes.items };

    ghost invariant = { λ s. length s.names.items ≡ length s.codes.items };
}

impl CodeSet {
    /// Elements with these names and codes.
    pub(crate) fn new(names: Vec<Name>, codes: Vec<Code>) -> CodeSet
        requires { length names.items ≡ length codes.items }
        ensures { result ≡ elements names.items codes.items }
    {
        CodeSet { names, codes }
    }

    /// The names of the elements, in order.
    #[tactic(auto, using(crate::proofs::Sets::names_are))]
    pub fn names(&self) -> &[Name]
        ensures { result.now ≡ names_of self.now }
    {
        self.names.as_slice()
    }

    /// The codes of the elements, as many as there are names and in the same order.
    #[tactic(auto, using(crate::proofs::Sets::codes_are))]
    pub fn codes(&self) -> &[Code]
        ensures { result.now ≡ codes_of self.now }
    {
        self.codes.as_slice()
    }
}
