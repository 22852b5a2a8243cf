//! Laws of code that is made of pieces, and of the compile scheme.
ghost use Rattle.std.specs.Prelude.{◌≡◌, ◌⊎◌, ℕ, suc, List, Some, None};
ghost use Rattle.stack_code.specs.Valid.{Kinds};
ghost use Rattle.ulam_tree.specs.Resolved as resolved;
ghost use Rattle.ulam_tree.specs.Typed as typed;
ghost use Rattle.type_rules.specs.Well.{IsWellProgram};
ghost use Rattle.ulam_meaning.specs.Programs.{Program, element_of};
ghost use Rattle.ulam_meaning.specs.Laws.{IsLaidOut};
ghost use Rattle.ulam_meaning.specs.Events.{behave_key};
ghost use Rattle.code_gen.specs.Pieces.{Key, Piece};
ghost use Rattle.code_gen.specs.Drafts.{Drafts, keys};
ghost use Rattle.code_gen.specs.FirstCalls.{AreByFirstCall};
ghost use Rattle.code_gen.specs.Kinds.{Setting, shapes, Fits, Shallow};
ghost use Rattle.code_gen.specs.DepthLaws.{DepthIsCount, DepthIsLow, HasDepth};
ghost use Rattle.code_gen.specs.LaidOut.{laid_program, ShareLayout};
ghost use Rattle.code_gen.specs.Limits.{IsShort};
ghost use Rattle.code_gen.specs.Scheme.{draft_of};
ghost use Rattle.code_gen.specs.Kinded.{IsKinded};
ghost use Rattle.code_gen.specs.Named.{IsNamedProgram, HasBehave};
ghost use Rattle.code_gen.specs.Compiled.{IsCompiled};
ghost use Rattle.code_gen.specs.Compiling.{class_code, AreShort, HasCodeAt, HasLong, HasShort, IsElementClass, IsFirstLong, LacksCodeAt};
ghost use Rattle.code_gen.specs.Laws.{IsReady, IsRight};
ghost use Rattle.code_gen.specs.Means.{Means};

/// If the functions of a program are ready and the limits let the code of an element through, this
/// code is valid, and on each window and seed it has the window and the ending of its functions.
pub fn right()
    ensures { (drafts : Drafts) (kind : ℕ) (main : Key) → IsReady drafts main → IsShort drafts main → IsRight drafts kind main }
{}

/// If the limits let the code of an element through, its functions are the first one and all that
/// are called, none twice, in the order of their first calls.
pub fn by_first_call()
    ensures { (drafts : Drafts) (main : Key) → IsShort drafts main → AreByFirstCall drafts main (keys drafts main) }
{}

/// For a piece that fits, the depth is the length of the list of kinds after it, and there is one
/// exactly when no place has more than 512 operands.
pub fn depths()
    ensures count { (n : Setting) (q : Piece) (ks : Kinds) → Fits n q ks → DepthIsCount n q ks }
    ensures low { (n : Setting) (q : Piece) (ks : Kinds) → Fits n q ks → DepthIsLow n q ks }
    ensures shallow { (n : Setting) (q : Piece) (ks : Kinds) → Fits n q ks → Shallow (shapes n q ks) → HasDepth n q ks }
{}

/// Typed classes with the heads of resolved ones are laid out by the layout of these, if none
/// contains itself and none is too wide. A program that is well typed, named and laid out has trees
/// of the right kinds. If the trees of a program have the right kinds and the limits let the code
/// of an element through, its functions are ready; and this code is valid, and on each window and
/// seed it has the window and the ending that the element's event means.
pub fn compiled()
    ensures layout { (classes : List resolved.Class) (tree : List typed.Class) → ShareLayout classes tree → IsLaidOut (laid_program classes tree) }
    ensures kinds { (program : Program) (class : ℕ) → IsWellProgram program.classes → IsNamedProgram program → IsLaidOut program → HasBehave program class → IsKinded program class }
    ensures ready { (program : Program) (class : ℕ) → IsKinded program class → IsReady (draft_of program) (behave_key program class) }
    ensures compiled { (program : Program) (kind class : ℕ) → IsKinded program class → HasShort program class → IsCompiled program kind class }
{}

/// If the trees of a program have the right kinds and the limits let the code of an element
/// through, this code leaves on each window whose centre has the element's type, and each seed, the
/// window that the element leaves, and fails if the element fails, with its number.
pub fn same_meaning()
    ensures { (program : Program) (class : ℕ) → IsElementClass program.classes class → IsKinded program class → HasShort program class → Means program class (class_code program class) }
{}

/// The limits let the code of each element of a program through, or there is a first element whose
/// code they don't; never both, and never two first ones.
pub fn one_compiling()
    ensures some { (program : Program) → AreShort program ⊎ HasLong program }
    ensures either { (program : Program) (class : ℕ) → AreShort program → IsFirstLong program class → ⊥ }
    ensures one { (program : Program) (a b : ℕ) → IsFirstLong program a → IsFirstLong program b → a ≡ b }
{}

/// The code of the element of a type number is at this number in the codes of all elements, of
/// which the first has the number 1; and if no element has the number, there is no code at it.
pub fn codes_in_order()
    ensures some { (program : Program) (k c : ℕ) → element_of program (suc k) ≡ Some c → HasCodeAt program k c }
    ensures none { (program : Program) (k : ℕ) → element_of program (suc k) ≡ None → LacksCodeAt program k }
{}
