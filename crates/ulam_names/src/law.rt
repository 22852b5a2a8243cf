//! Laws of names.
ghost use Rattle.std.specs.Prelude.{◌≡◌, List, None};
ghost use Rattle.ulam_tree.specs.Raw.{Item};
ghost use Rattle.ulam_tree.specs.Resolved.{Class};
ghost use Rattle.ulam_tree.specs.Ways.{NoneContainsItself};
ghost use Rattle.ulam_names.specs.Classes.{first_fault};
ghost use Rattle.ulam_names.specs.ClassRelation.{IsResolved};

/// Files have a resolution exactly if they have no first fault, and at most one. In a resolution
/// no class contains itself, directly or through other classes.
pub fn one_resolution()
    ensures some { (items : List Item) → first_fault items ≡ None → (classes : List Class) × IsResolved items classes }
    ensures none { (items : List Item) (classes : List Class) → IsResolved items classes → first_fault items ≡ None }
    ensures one { (items : List Item) (a b : List Class) → IsResolved items a → IsResolved items b → a ≡ b }
    ensures apart { (items : List Item) (classes : List Class) → IsResolved items classes → NoneContainsItself classes }
{}
