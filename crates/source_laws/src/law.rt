//! The law of names, layout and types together.
ghost use Rattle.code_gen.specs.Compiling.{IsCompilable};
ghost use Rattle.source_laws.specs.Sources.{Source, source_program};

/// If the items of all files are resolved to these classes, none of which is too wide, and the
/// classes have this typed tree, the tree with the classes' layout is what the compiler needs: it
/// is well typed, its paths, slots, widths and numbers are right, it is laid out, and each element
/// has a `behave` without parameters and without a result.
pub fn names_hold()
    ensures { (source : Source) → IsCompilable (source_program source) }
{}
