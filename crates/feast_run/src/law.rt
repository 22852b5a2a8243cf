//! What holds of the elements of generated worlds.
ghost use Rattle.std.specs.Prelude.{◌≡◌};
ghost use Rattle.element_set.specs.Sets.{AcceptsFiles, SetValue, element_names};
ghost use Rattle.feast_run.specs.GeneratedElements.{both_names, source_files};

/// Their source is a set: no stage refuses it. Its elements are `Wander` and `Stone`, in this
/// order. The call does nothing: its contract is the law.
pub fn wander_and_stone()
    ensures accepted { (set : SetValue) × AcceptsFiles source_files set }
    ensures names { (set : SetValue) → AcceptsFiles source_files set → element_names set ≡ both_names }
{}
