//! The law of layouts.
ghost use Rattle.std.specs.Prelude.{List};
ghost use Rattle.ulam_tree.specs.Resolved.{Class};
ghost use Rattle.ulam_tree.specs.Ways.{NoneContainsItself};
ghost use Rattle.atom_layout.specs.Layouts.{BitsAddUp};

/// If no class contains itself, the bits of a class are the sum of those of its data members.
pub fn one_width()
    ensures { (classes : List Class) → NoneContainsItself classes → BitsAddUp classes }
{}
