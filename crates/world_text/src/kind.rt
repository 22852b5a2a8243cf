//! The kinds of lines, and which may come after which.
ghost use Rattle.std.specs.Prelude.{◌≡◌, MatchOption, None, Some, option_map};
ghost use Rattle.world_text.specs.Drafts.{after_atoms, after_size, after_tries, kind_of, may_follow, misplaced_code, missing};
ghost use Rattle.world_text.specs.Reading.{fault_of};
ghost use Rattle.world_text.specs.Values.{line_value};

use crate::fault::WorldFault;
use crate::line::Line;

/// The kind of a line of a world, or `Start` if there is no line before.
#[derive(Clone, Copy)]
pub enum Kind {
    /// No line.
    Start,
    /// The version.
    Header,
    /// How many tiles there are.
    Tiles,
    /// The size of a tile.
    Size,
    /// A tile that is off.
    Off,
    /// The seed of the attempts.
    Seed,
    /// How many attempts each tile draws.
    Attempts,
    /// An attempt that is written out.
    Try,
    /// An atom.
    Atom,
    /// The seed of the order of a stepped run.
    OrderSeed,
    /// Tiles of the order of a stepped run.
    Order,
}

/// Whether the tiles' size is given, and no attempt yet.
fn after_size(kind: Kind) -> bool
    ensures { result ≡ after_size kind }
{
    matches!(kind, Kind::Size | Kind::Off)
}

/// Whether the attempts may be over.
fn after_tries(kind: Kind) -> bool
    ensures { result ≡ after_tries kind }
{
    match kind {
        Kind::Attempts | Kind::Try => true,
        _ => after_size(kind),
    }
}

/// Whether the atoms may be over.
fn after_atoms(kind: Kind) -> bool
    ensures { result ≡ after_atoms kind }
{
    match kind {
        Kind::Atom => true,
        _ => after_tries(kind),
    }
}

/// Whether a line of a kind may come after one of another kind, in a world of the second version
/// or of the first.
pub(crate) fn may_follow(second: bool, last: Kind, next: Kind) -> bool
    ensures { result ≡ may_follow second last next }
{
    match (last, next) {
        (Kind::Start, Kind::Header) => true,
        (Kind::Header, Kind::Tiles) => true,
        (Kind::Tiles, Kind::Size) => true,
        (_, Kind::Off) => second && after_size(last),
        (_, Kind::Seed) => after_size(last),
        (Kind::Seed, Kind::Attempts) => true,
        (Kind::Try, Kind::Try) => true,
        (_, Kind::Try) => after_size(last),
        (_, Kind::Atom) => after_atoms(last),
        (_, Kind::OrderSeed) => after_atoms(last),
        (Kind::Order, Kind::Order) => true,
        (_, Kind::Order) => after_atoms(last),
        _ => false,
    }
}

/// The kind of a line.
pub(crate) fn kind_of(line: &Line) -> Kind
    ensures { result ≡ kind_of (line_value line.now) }
{
    match line {
        Line::Header { .. } => Kind::Header,
        Line::Tiles { .. } => Kind::Tiles,
        Line::Size { .. } => Kind::Size,
        Line::Off { .. } => Kind::Off,
        Line::Seed { .. } => Kind::Seed,
        Line::Attempts { .. } => Kind::Attempts,
        Line::Try { .. } => Kind::Try,
        Line::Atom { .. } => Kind::Atom,
        Line::OrderSeed { .. } => Kind::OrderSeed,
        Line::Order { .. } => Kind::Order,
    }
}

/// The fault of line `n`, if it can't be where it is: `BadHeader` if it is the first one, otherwise
/// `BadLine`.
pub fn misplaced_fault(last: Kind, n: u64) -> WorldFault
    ensures { fault_of result ≡ Some (misplaced_code last, n) }
{
    match last {
        Kind::Start => WorldFault::BadHeader(n),
        _ => WorldFault::BadLine(n),
    }
}

/// The fault of a world that ends before line `n`, if it may not end there.
#[tactic(auto, unfolding(crate::specs::Drafts::missing))]
pub(crate) fn missing(last: Kind, n: u64) -> Option<WorldFault>
    ensures { MatchOption result (missing last ≡ None) (λ fault. option_map (λ code. (code, n)) (missing last) ≡ fault_of fault) }
{
    match last {
        Kind::Start => Some(WorldFault::BadHeader(n)),
        Kind::Header | Kind::Tiles | Kind::Seed => Some(WorldFault::MissingLine(n)),
        _ => None,
    }
}
