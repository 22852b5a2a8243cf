//! The laws of serial order, as contracts of calls that do nothing.
ghost use Rattle.serial_order.specs.Boards.{RestingEndsHavePlayed, StoppedRunsAreOver};
ghost use Rattle.serial_order.specs.Scene.{IsOver, Scene};
ghost use Rattle.serial_order.specs.OneEdge.{NewsHoldsAtAnyMoment};
ghost use Rattle.serial_order.specs.Order.{FindsWhatStands, HasOneOrder};
ghost use Rattle.serial_order.specs.Example.{small_scene};

/// What holds of all tiles of a plane and the histories of all edges once each tile has played its
/// attempts of a plan from one start grid, in whatever order their steps took place.
///
/// No tile is worn out. The tiles' logs make a journal, which accounts for each attempt; its stamps
/// are those of Lamport's rule, and each attempt that was given up is excused. A grid that has at
/// each live site the newest of the owner's cell and those of the owner's edges is the replay of
/// the records from the start grid. No stamp is greater than the number of records, two records of
/// one stamp have no live site in common, and following the named holders leads to a record. If the
/// news bit of an end is 0 for a site, the edge's cell there is not newer than that end's own.
///
/// It does nothing.
pub fn one_order()
    ensures { (s : Scene) → IsOver s → HasOneOrder s }
{}

/// What holds of one edge and its two ends at any moment at which both have played what they drew,
/// whatever all other tiles do: if the news bit of an end is 0 for a site, the edge's cell there is
/// not newer than that end's own. It does nothing.
pub fn news_at_any_moment()
    ensures { NewsHoldsAtAnyMoment }
{}

/// What a hold finds in a register of its edge is that register as the hold begins. It does
/// nothing.
pub fn finds_what_stands()
    ensures { FindsWhatStands }
{}

/// A run that meets all the requirements of `one_order`: one tile, one attempt, one event. It does
/// nothing.
pub fn small_run()
    ensures { IsOver small_scene }
{}

/// All tiles of a plane that have stopped on one plain board are over, and the board's words are
/// those of its edges' histories. It does nothing.
pub fn plain_run()
    ensures { StoppedRunsAreOver }
{}

/// Two tiles at the ends of an edge of one plain board meet the requirements of
/// `news_at_any_moment` whenever both are at rest, that is between two attempts, finished or worn
/// out. It does nothing.
pub fn plain_moment()
    ensures { RestingEndsHavePlayed }
{}
