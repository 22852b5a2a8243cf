//! The ranges of the numbers of a line.
ghost use Rattle.std.specs.Prelude.{◌≡◌};
ghost use Rattle.chain_text.specs.Drafts.{IsChainDraft, act_in_range, area_in_range, asks_too_many, in_range, too_many};
ghost use Rattle.chain_text.specs.Values.{act_value, area_value, draft_value, line_value};
ghost use Rattle.tile_map.specs.Plane.{IsMap};
ghost use Rattle.world_text.specs.Drafts.{between};

use crate::draft::Draft;
use crate::limits::{LAST_LEG, MOST_LEGS};
use crate::line::{ActLine, Area, Line};
use bit_field::STATE_BITS;
use world_text::PartialWorld;

/// Whether a number lies between two others.
fn between(low: u32, high: u32, n: u128) -> bool
    ensures { result ≡ between low high n }
{
    low as u128 <= n && n <= high as u128
}

/// Whether an area has a site, and lies in the plane.
fn area_in_range(world: &PartialWorld, area: &Area) -> bool
    requires { IsMap world.now.plane }
    ensures { result ≡ area_in_range world.now.plane (area_value area.now) }
{
    (1 <= area.w && 1 <= area.h)
        && (area.x.saturating_add(area.w) <= world.width() as u128
            && area.y.saturating_add(area.h) <= world.height() as u128)
}

/// Whether the numbers of an act are in their ranges.
fn act_in_range(world: &PartialWorld, act: &ActLine) -> bool
    requires { IsMap world.now.plane }
    ensures { result ≡ act_in_range world.now.plane (act_value act.now) }
{
    match act {
        ActLine::Clear(area) => area_in_range(world, area),
        ActLine::Put(area, _, state) => area_in_range(world, area) && *state < 1u128 << STATE_BITS,
        ActLine::Erase(_, area) => area_in_range(world, area),
        ActLine::Flip(_, area) => area_in_range(world, area),
        ActLine::Attempts(_) => true,
    }
}

/// Whether the numbers of a line of the chain's own are in their ranges.
#[tactic(auto, unfolding(crate::specs::Drafts::in_range))]
pub(crate) fn in_range(draft: &Draft, line: &Line) -> bool
    requires { IsMap draft.now.world.plane }
    ensures { result ≡ in_range (draft_value draft.now) (line_value line.now) }
{
    match line {
        Line::Legs(count) => between(1, MOST_LEGS, *count),
        Line::First(leg) => 1 <= *leg
            && leg.saturating_add(draft.legs as u128) <= LAST_LEG as u128 + 1,
        Line::Print(legs) => between(1, MOST_LEGS, *legs),
        Line::Every(period, act) => between(1, LAST_LEG, *period)
            && act_in_range(&draft.world, act),
        Line::Act(leg, act) => between(draft.leg, LAST_LEG, *leg)
            && act_in_range(&draft.world, act),
        _ => true,
    }
}

/// Whether an act asks for more than 1,000,000 attempts in total.
fn too_many(world: &PartialWorld, act: &ActLine) -> bool
    ensures { result ≡ too_many world.now (act_value act.now) }
{
    match act {
        ActLine::Attempts(count) => {
            world.is_too_many(&world_text::Line::Attempts { count: *count })
        }
        _ => false,
    }
}

/// Whether a line of the chain's own asks for more than 1,000,000 attempts in total.
pub(crate) fn asks_too_many(draft: &Draft, line: &Line) -> bool
    ensures { result ≡ asks_too_many (draft_value draft.now) (line_value line.now) }
{
    match line {
        Line::Act(_, act) => too_many(&draft.world, act),
        _ => false,
    }
}
