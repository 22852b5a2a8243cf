//! The faults of names.
ghost use Rattle.std.specs.Prelude.{◌≡◌, List, Some};
ghost use Rattle.feast_base.specs.declared.place.Place.{Place};
ghost use Rattle.ulam_tree.specs.Raw.{Item};
ghost use Rattle.ulam_names.specs.Faults.{declared_twice, unknown_name, cyclic_quark, no_behave, bad_constant, too_many, bad_width};
ghost use Rattle.ulam_names.specs.Classes.{first_fault};
ghost use Rattle.fault_laws.specs.NamesFaults.{IsDoubled, IsUnknown, IsCyclic, LacksBehave, IsBadConstant, IsTooMany, IsBadWidth};
ghost use Rattle.fault_laws.specs.NamesExamples.{EachIsFound};

/// What holds at the place of the first fault of names, for each code. The name stands there, and:
/// it is declared before it in its scope, or built in; it is no type, constant, member or local that
/// is in sight there; its quark contains itself; its element has no `Void behave()`; its constant has
/// a value of another kind or out of its range; as many as the limit stand before it; its width is
/// out of its range or on a type that takes none, its type may not stand there, or its array is too
/// long or empty. An example has each of these faults first.
pub fn name_faults()
    ensures doubled { (items : List Item) (p : Place) → first_fault items ≡ Some (declared_twice p) → IsDoubled items p }
    ensures unknown { (items : List Item) (p : Place) → first_fault items ≡ Some (unknown_name p) → IsUnknown items p }
    ensures cyclic { (items : List Item) (p : Place) → first_fault items ≡ Some (cyclic_quark p) → IsCyclic items p }
    ensures behave { (items : List Item) (p : Place) → first_fault items ≡ Some (no_behave p) → LacksBehave items p }
    ensures constant { (items : List Item) (p : Place) → first_fault items ≡ Some (bad_constant p) → IsBadConstant items p }
    ensures many { (items : List Item) (p : Place) → first_fault items ≡ Some (too_many p) → IsTooMany items p }
    ensures width { (items : List Item) (p : Place) → first_fault items ≡ Some (bad_width p) → IsBadWidth items p }
    ensures examples { EachIsFound }
{}
