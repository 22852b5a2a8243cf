//! Classes whose members are resolved, except for the bodies of functions.
ghost use Rattle.std.specs.Prelude.{◌≡◌, ◌<◌, ◌≤◌, [], ◌∷◌, ◌++◌, length, OnOk, OnErr};
ghost use Rattle.feast_base.specs.declared.limits.TheConstants.{MOST_PARAMS};

use crate::names::Names;
use std::alloc::{AllocFailed, Global};
use std::marker::Model;
use ulam_tree::resolved::Named;
use ulam_tree::{Statement, Word};

/// A class.
pub struct HalfClass<'a> {
    pub quark: bool,
    pub word: &'a Word,
    /// What it has declared.
    pub names: Names<'a>,
    /// Its data members and functions, in order.
    pub members: Vec<Half<'a>>,
}

// Written by hand, not derived: so a caller drops it by one call.
impl Drop for HalfClass<'_> {
    fn drop(self) {
        let HalfClass {
            quark,
            word,
            names,
            members,
        } = self;
    }
}

/// A data member or a function.
pub enum Half<'a> {
    /// A data member with the length of its array, or 0 if it is not an array.
    Field(Named, &'a Word, u32),
    /// A function.
    Function(Pending<'a>),
}

// Written by hand, not derived: so a caller drops it by one call.
impl Drop for Half<'_> {
    fn drop(self) {
        match self {
            Half::Field(of, word, length) => {}
            Half::Function(pending) => {}
        }
    }
}

/// A function whose body is not resolved yet.
#[derive(Drop)]
pub struct Pending<'a> {
    pub of: Named,
    pub word: &'a Word,
    pub params: Params<'a>,
    pub body: &'a [Statement],
    /// How many typedefs its class declares before it.
    pub typedefs: usize,
    /// How many constants its class declares before it.
    pub constants: usize,
}

/// A parameter.
#[derive(Clone, Copy)]
pub struct HalfParam<'a> {
    pub of: Named,
    pub word: &'a Word,
}

/// The parameters of a function, no more than it may have.
#[derive(Drop)]
pub struct Params<'a> {
    list: Vec<HalfParam<'a>>,
}

impl<'a> Model for Params<'a> {
    ghost use Rattle.std.specs.Prelude.{List, length, ◌≤◌};
    ghost use Rattle.ulam_names.specs.declared.half.HalfParam.{HalfParam};
    ghost use Rattle.feast_base.specs.declared.limits.TheConstants.{MOST_PARAMS};

    ghost Value = { List HalfParam };

    ghost view = { λ p. p.list.items };

    ghost invariant = { λ p. length p.list.items ≤ MOST_PARAMS };
}

impl<'a> Params<'a> {
    /// An empty list.
    pub fn new(alloc: Global) -> Params<'a>
        ensures { result ≡ [] }
    {
        Params {
            list: Vec::new(alloc),
        }
    }

    /// The number of parameters.
    pub fn len(&self) -> usize
        ensures count { result ≡ length self.now }
        ensures few { result ≤ MOST_PARAMS }
    {
        self.list.len()
    }

    /// The parameters.
    pub fn as_slice(&self) -> &[HalfParam<'a>]
        ensures { result.now ≡ self.now }
    {
        self.list.as_slice()
    }

    /// Appends a parameter.
    pub fn push(&mut self, param: HalfParam<'a>) -> Result<(), AllocFailed<HalfParam<'a>>>
        requires { length self.old < MOST_PARAMS }
        ensures ok { OnOk result (self.new ≡ self.old ++ param.entry ∷ []) }
        ensures err { OnErr result (self.new ≡ self.old) }
    {
        self.list.push(param)
    }
}
