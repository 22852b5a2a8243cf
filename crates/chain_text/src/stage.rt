//! How far the lines of a chain have come, and which may come next.
ghost use Rattle.std.specs.Prelude.{◌≡◌, MatchOption, None, option_map};
ghost use Rattle.chain_text.specs.Drafts.{after_act, after_atom, after_counted, after_every, after_first, after_journal, after_legs, is_attempts, is_plane, may_come, missing, plain_may_come};
ghost use Rattle.chain_text.specs.Values.{line_value};
ghost use Rattle.world_text.specs.Reading.{fault_of};
ghost use Rattle.world_text.specs.Values.{line_value as world_line_value};

use crate::line::Line;
use world_text::{Kind, WorldFault};

/// How far the lines have come: what the last one was.
#[derive(Clone, Copy)]
pub(crate) enum Stage {
    /// One about the plane or its attempts, or none.
    Plane,
    /// How many legs there are.
    Legs,
    /// The number of the first leg.
    First,
    /// That the reports have journals.
    Recorded,
    /// That the reports have counts alone.
    Counted,
    /// The legs after which counts are reported.
    Print,
    /// An act of many legs.
    Every,
    /// An act of one leg.
    Once,
    /// An atom.
    Atom,
}

/// Whether the lines about the plane and its attempts are not over.
fn is_plane(stage: Stage) -> bool
    ensures { result ≡ is_plane stage }
{
    matches!(stage, Stage::Plane)
}

/// Whether the first leg may be given.
fn after_legs(stage: Stage) -> bool
    ensures { result ≡ after_legs stage }
{
    matches!(stage, Stage::Legs)
}

/// Whether the reports may be given.
fn after_first(stage: Stage) -> bool
    ensures { result ≡ after_first stage }
{
    matches!(stage, Stage::Legs | Stage::First)
}

/// Whether the legs after which counts are reported may be given.
fn after_counted(stage: Stage) -> bool
    ensures { result ≡ after_counted stage }
{
    matches!(stage, Stage::Counted)
}

/// Whether the acts of many legs may begin.
fn after_journal(stage: Stage) -> bool
    ensures { result ≡ after_journal stage }
{
    match stage {
        Stage::Recorded | Stage::Counted | Stage::Print => true,
        _ => after_first(stage),
    }
}

/// Whether the acts of many legs may go on.
fn after_every(stage: Stage) -> bool
    ensures { result ≡ after_every stage }
{
    match stage {
        Stage::Every => true,
        _ => after_journal(stage),
    }
}

/// Whether the acts of one leg may go on.
fn after_act(stage: Stage) -> bool
    ensures { result ≡ after_act stage }
{
    match stage {
        Stage::Once => true,
        _ => after_every(stage),
    }
}

/// Whether the atoms may go on.
fn after_atom(stage: Stage) -> bool
    ensures { result ≡ after_atom stage }
{
    match stage {
        Stage::Atom => true,
        _ => after_act(stage),
    }
}

/// Whether a line that a world has too may come.
fn plain_may_come(stage: Stage, line: &world_text::Line) -> bool
    ensures { result ≡ plain_may_come stage (world_line_value line.now) }
{
    match line {
        world_text::Line::Atom { .. } => after_atom(stage),
        _ => is_plane(stage),
    }
}

/// Whether the last line of the plane says how many attempts there are.
fn is_attempts(last: Kind) -> bool
    ensures { result ≡ is_attempts last }
{
    matches!(last, Kind::Attempts)
}

/// Whether a line may come next, if the last line about the plane is of this kind.
pub(crate) fn may_come(stage: Stage, last: Kind, line: &Line) -> bool
    ensures { result ≡ may_come stage last (line_value line.now) }
{
    match line {
        Line::Header => is_plane(stage),
        Line::Plain(plain) => plain_may_come(stage, plain),
        Line::Legs(_) => is_plane(stage) && is_attempts(last),
        Line::First(_) => after_legs(stage),
        Line::Journal(_) => after_first(stage),
        Line::Print(_) => after_counted(stage),
        Line::Every(_, _) => after_every(stage),
        Line::Act(_, _) => after_act(stage),
    }
}

/// The fault of a chain that ends before line `n`, if it may not end there.
#[tactic(auto, unfolding(crate::specs::Drafts::missing))]
pub(crate) fn missing(stage: Stage, last: Kind, n: u64) -> Option<WorldFault>
    ensures { MatchOption result (missing stage last ≡ None) (λ fault. option_map (λ code. (code, n)) (missing stage last) ≡ fault_of fault) }
{
    match (stage, last) {
        (Stage::Plane, Kind::Start) => Some(WorldFault::BadHeader(n)),
        (Stage::Plane, _) => Some(WorldFault::MissingLine(n)),
        _ => None,
    }
}
