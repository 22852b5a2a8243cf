//! What is true of worlds, of the journals of their reports, and of planes of one tile.
ghost use Rattle.std.specs.Prelude.{ℕ, List, []};
ghost use Rattle.draw_stream.specs.Plans.{PlanValue};
ghost use Rattle.event_journal.specs.Serial.{OwesNothing};
ghost use Rattle.tile_map.specs.Plane.{MapValue};
ghost use Rattle.world_text.specs.Named.{WorldValue};
ghost use Rattle.world_text.specs.Printed.{IsNamed};
ghost use Rattle.world_runs.specs.OneTile.{IsAlone, events_of};
ghost use Rattle.world_runs.specs.Orders.{IsOrder};
ghost use Rattle.world_runs.specs.Worlds.{NamedWorldsAreValid, ReadEventsAreLive};

/// The laws of worlds, as a contract; the call does nothing. A world that `name` returns has what a
/// run needs: its atoms are on live sites, and each attempt belongs to a tile that is on, at a
/// position of its rectangle. In a report that is read for such a world, each event is at a live
/// site.
pub fn laws()
    ensures world { NamedWorldsAreValid }
    ensures live { ReadEventsAreLive }
{}

/// The order that a world's lines give names tiles of its plane. The call does nothing: its
/// contract is the law.
pub fn listed_order()
    ensures { (names : List (List ℕ)) (w : WorldValue) → IsNamed names w → IsOrder w.plane w.order }
{}

/// On a plane of one tile, if each attempt is an event with the stamp of its place in order, each
/// attempt is accounted for, each stamp is 1 more than the greatest of the linked events before it,
/// and no attempt is left to be excused. The call does nothing: its contract is the law.
pub fn each_attempt_is_an_event()
    ensures { (m : MapValue) (plan : PlanValue) → IsAlone m plan → OwesNothing m plan (events_of m plan) [] }
{}
