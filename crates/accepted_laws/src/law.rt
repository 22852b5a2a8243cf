//! The laws of accepted files.
ghost use Rattle.std.specs.Prelude.{ℕ, List};
ghost use Rattle.feast_base.specs.Outside.{File};
ghost use Rattle.ulam_heirs.specs.Laws.{HasBase};
ghost use Rattle.code_gen.specs.Compiling.{IsElementClass};
ghost use Rattle.element_set.specs.Sets.{AcceptsFiles, SetValue, program_of};
ghost use Rattle.accepted_laws.specs.Accepted.{AcceptedTrees, HaveTrees, heirs, NumbersAgree};
ghost use Rattle.accepted_laws.specs.Data.{HasMembersOf};
ghost use Rattle.accepted_laws.specs.Calls.{IsVirtualIn, CallsNearest};
ghost use Rattle.accepted_laws.specs.Example.{HasExample};
ghost use Rattle.accepted_laws.specs.Meanings.{HasMeaning};

use code_gen::compiled;
use source_laws::names_hold;
use ulam_heirs::{base_in_front, one_line};

/// Accepted files have trees: those of their texts, the classes to which names lead once each class
/// has the members of its bases, and the typed tree of these classes, which is that of their set. In
/// such trees a class has one number, before and after it is made flat and typed. Each data member of
/// a base is a data member of each heir, through any number of bases: it has the same name, type and
/// length, the same first bit by the layout, and as many bits. If a name is virtual in a class, the
/// class has one function of that name, the nearest declaration; and in each of its bodies, its own
/// and inherited ones, the name leads to this function, unless a local hides it. An example meets the
/// conditions. The call does nothing: its contract is the laws.
pub fn base_laws()
    ensures accepted { (files : List File) (set : SetValue) → AcceptsFiles files set → HaveTrees files set }
    ensures numbers { (x : AcceptedTrees) → NumbersAgree x }
    ensures members { (x : AcceptedTrees) (heir base : ℕ) → HasBase (heirs x) heir base → HasMembersOf x heir base }
    ensures calls { (x : AcceptedTrees) (k : ℕ) (name : List ℕ) → IsVirtualIn x k name → CallsNearest x k name }
    ensures example { HasExample }
{
    base_in_front();
    one_line();
}

/// Each event of an element of accepted files has a meaning: on each window and seed its `behave`
/// comes to an end or fails.
pub fn each_event_has_a_meaning()
    ensures { (files : List File) (s : SetValue) (c : ℕ) → AcceptsFiles files s → IsElementClass s.classes c → HasMeaning (program_of s) c }
{
    names_hold();
    compiled();
}
