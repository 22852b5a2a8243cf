//! The laws of meaning.
ghost use Rattle.std.specs.Prelude.{List};
ghost use Rattle.ulam_tree.specs.Resolved as resolved;
ghost use Rattle.ulam_meaning.specs.Programs.{Program};
ghost use Rattle.ulam_meaning.specs.Paths.{Scene};
ghost use Rattle.ulam_meaning.specs.Runs.{Event};
ghost use Rattle.ulam_meaning.specs.Laws.{CallsTakeTurns, EmptyCentreStays, FailsAsListed, FailureEmptiesCentre, HasLayout, HasState, IsKnown, IsLaidOut, KeepsEach, KeepsLiveMarks, LeavesWindows, StatementsTakeTurns, StrangerStays, TurnsEndLoops};

/// What holds of every program, window and seed.
///
/// No statement and no call gives a turn back (`statements`, `calls`), and turns end a loop,
/// however many more rounds it is allowed (`rounds`). An event leaves a window (`window`): live
/// marks stay, and only live sites change (`marks`); states stay below 2^71 if the data members
/// have a layout (`states`); if each atom is Empty or of one of the elements, so is each afterwards
/// (`known`). A failure is one of seven (`failures`) and leaves the old window with Empty at site 0
/// (`failed`). An empty centre and a type without an element leave the window as it is (`idle`,
/// `stranger`).
pub fn laws()
    ensures statements { (event : Event) (scene : Scene) → StatementsTakeTurns event scene }
    ensures calls { (program : Program) → CallsTakeTurns program }
    ensures rounds { (event : Event) (scene : Scene) → TurnsEndLoops event scene }
    ensures window { (program : Program) → LeavesWindows program }
    ensures marks { (program : Program) → KeepsLiveMarks program }
    ensures states { (program : Program) → IsLaidOut program → KeepsEach program HasState }
    ensures known { (program : Program) → KeepsEach program (IsKnown program) }
    ensures failures { (program : Program) → FailsAsListed program }
    ensures failed { (program : Program) → FailureEmptiesCentre program }
    ensures idle { (program : Program) → EmptyCentreStays program }
    ensures stranger { (program : Program) → StrangerStays program }
{}

/// If no class of these contains itself and none is too wide, their layout is also a layout of the
/// same classes once their types are known.
pub fn laid_out()
    ensures { (classes : List resolved.Class) → HasLayout classes }
{}
