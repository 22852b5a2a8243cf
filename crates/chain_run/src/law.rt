//! The laws of chains.
ghost use Rattle.std.specs.Prelude.{ℕ, List};
ghost use Rattle.chain_run.specs.Audits.{AreReportsJoined, IsAuditable, IsReportIfYes, IsYesIfReport};
ghost use Rattle.chain_run.specs.Chains.{AreChainsCutAndJoined, AreChainsCutWhereShown, ChainsHaveOneCourse};
ghost use Rattle.chain_run.specs.Cuts.{AreChainsCutShort};
ghost use Rattle.chain_run.specs.Laws.{AreCutAndJoined, HaveOneCourse};
ghost use Rattle.chain_run.specs.LegWorlds.{AreLegsRuns, AreNextLegsRuns};
ghost use Rattle.chain_run.specs.Runs.{AreLoneLegsStepped};
ghost use Rattle.chain_text.specs.Chain.{ChainValue};
ghost use Rattle.window_sites.specs.Window.{WindowValue};

/// All that happens in a chain stands in one course: for each leg first its acts, then its events in
/// the order of its journal. The grid after the last leg is what this course makes of the grid before
/// the first one, one item at a time, on one uncut grid. The call does nothing: its contract is the
/// law, of legs in general and of those of a chain.
pub fn one_course()
    ensures legs { HaveOneCourse }
    ensures chains { ChainsHaveOneCourse }
{}

/// A chain may be cut between any two legs: legs are those of a chain exactly if the first ones are
/// those of its first part, and the others those of the part that goes on with the numbers that
/// follow, from atoms that make the grid which the first ones leave. The atoms that this grid shows are
/// such ones, if names give the chain and its elements bring no other atoms. The report of the chain is that of the first
/// part followed by that of the other, where counts, if those are printed, are printed between the two. The call does nothing: its
/// contract is the law, of legs in general and of those of a chain.
pub fn cut_and_join()
    ensures legs { AreCutAndJoined }
    ensures chains { AreChainsCutAndJoined }
    ensures shown { AreChainsCutWhereShown }
    ensures reports { AreReportsJoined }
{}

/// A leg of a chain is a run of a world of its own, which can be run: that of the chain's plane, the leg's seeds and
/// attempts, and the atoms that are shown by the grid before the leg once its acts are done. What the leg is a run of, and
/// the order of its steps if it is stepped, are those of this world. The call does nothing: its contract is the law, over
/// grids between legs and behind the first legs of a chain.
pub fn legs_are_runs()
    ensures grids { AreLegsRuns }
    ensures chains { AreNextLegsRuns }
{}

/// On a plane of one tile nothing is left to chance: legs that follow one another are those of the stepped run, and each of
/// their attempts is an event, in its order. So each run of a chain leaves the same legs. The call does nothing: its contract
/// is the law.
pub fn lone_legs()
    ensures { AreLoneLegsStepped }
{}

/// What `Yes` says of the report of a chain whose legs have whole or short ones: bytes that are read and
/// judged so are the report of legs that are the chain's, and the report of any such legs is read, says
/// these legs, and is judged so, and in no other way. The call does nothing: its contract is the law.
pub fn sound_audits()
    ensures report { (names : List (List ℕ)) (c : ChainValue) (meaning : WindowValue → ℕ → WindowValue) → IsAuditable names c meaning → IsReportIfYes names c meaning }
    ensures yes { (names : List (List ℕ)) (c : ChainValue) (meaning : WindowValue → ℕ → WindowValue) → IsAuditable names c meaning → IsYesIfReport names c meaning }
{}

/// If a text of lines is the report of a chain whose legs have whole or short ones, then its first
/// lines, unless they are all of them, are no report of the chain, and the fault is at the line after
/// them. This holds of whatever is called a chain: nothing is asked of its plane or its seeds. The call
/// does nothing: its contract is the law.
pub fn cut_reports()
    ensures { AreChainsCutShort }
{}
