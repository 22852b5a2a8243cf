//! Laws of types.
ghost use Rattle.std.specs.Prelude.{◌≡◌, List, None};
ghost use Rattle.ulam_tree.specs.Resolved.{Class};
ghost use Rattle.type_rules.specs.Programs.{first_fault};
ghost use Rattle.type_rules.specs.ProgramTyping.{HasTypedTree, HasOneTreeAtMost};

/// A program has a typed tree exactly if it has no first fault, and at most one.
pub fn one_typing()
    ensures some { (program : List Class) → first_fault program ≡ None → HasTypedTree program }
    ensures none { (program : List Class) → HasTypedTree program → first_fault program ≡ None }
    ensures one { (program : List Class) → HasOneTreeAtMost program }
{}
