//! The law of building.
ghost use Rattle.std.specs.Prelude.{◌≡◌, ◌⊎◌, List};
ghost use Rattle.feast_base.specs.Outside.{File};
ghost use Rattle.feast_base.specs.declared.place.Refusal.{Refusal};
ghost use Rattle.fault_places.specs.Standing.{IsNumbered, StandsIn};
ghost use Rattle.element_set.specs.Sets.{SetValue, AcceptsFiles, HaveRefusal, HaveSet, RefusesFiles};

/// Files have a set or a refusal, and never two sets, or two refusals, or both.
pub fn one_building()
    ensures some { (files : List File) → HaveSet files ⊎ HaveRefusal files }
    ensures set { (files : List File) (a b : SetValue) → AcceptsFiles files a → AcceptsFiles files b → a ≡ b }
    ensures refusal { (files : List File) (a b : Refusal) → RefusesFiles files a → RefusesFiles files b → a ≡ b }
    ensures either { (files : List File) (s : SetValue) (r : Refusal) → AcceptsFiles files s → RefusesFiles files r → ⊥ }
{}

/// A refusal of files stands in one of them: its place is that of a byte of the file, or that of the
/// file's end. So its file is the number of one of the files, and its line and column are from 1.
pub fn refusals_stand_in_files()
    ensures place { (files : List File) (r : Refusal) → RefusesFiles files r → StandsIn files r.place }
    ensures numbers { (files : List File) (r : Refusal) → RefusesFiles files r → IsNumbered files r.place }
{}
