//! The ranges of the numbers of a line.
ghost use Rattle.std.specs.Prelude.{◌≡◌, ◌≤◌, ◌<◌, Some, None, length, drop, if◌then◌else◌};
ghost use Rattle.std.specs.List.{list_all, list_any};
ghost use Rattle.draw_stream.specs.Plans.{tiles_on};
ghost use Rattle.tile_map.specs.Plane.{IsMap, in_plane, is_live, is_on, owner_of, site};
ghost use Rattle.world_text.specs.Drafts.{IsDraft, atom_in_range, between, in_range, off_in_range, too_many, try_in_range};
ghost use Rattle.world_text.specs.Values.{draft_plane, draft_value, line_value};
ghost use Rattle.tile_map.specs.declared.limits.TheConstants.{LEAST_SIDE, MOST_SIDE};
ghost use Rattle.window_sites.specs.declared.window.TheConstants.{MOST_COLUMNS};

use crate::draft::Draft;
use crate::line::Line;
use bit_field::STATE_BITS;
use feast_base::MOST_ATTEMPTS;
use tile_map::{LEAST_SIDE, MOST_ACROSS, MOST_SIDE};

/// Whether a number is that of a tile that is on.
fn is_on(draft: &Draft, tile: u128) -> bool
    requires { IsMap (draft_plane draft.now) }
    ensures { result ≡ is_on (draft_plane draft.now) tile }
{
    tile < (draft.tx * draft.ty) as u128 && !draft.off[tile as usize]
}

/// Whether a site is on the plane.
fn in_plane(draft: &Draft, x: u128, y: u128) -> bool
    requires { IsMap (draft_plane draft.now) }
    ensures { result ≡ in_plane (draft_plane draft.now) (site x y) }
{
    x < (draft.tx * draft.w) as u128 && y < (draft.ty * draft.h) as u128
}

/// The tile whose rectangle has a site.
fn owner(draft: &Draft, x: u32, y: u32) -> u32
    requires shape { IsMap (draft_plane draft.now) }
    requires site { (x < MOST_COLUMNS) × (y < MOST_COLUMNS) }
    ensures { result ≡ owner_of (draft_plane draft.now) (site x y) }
{
    y / draft.h * draft.tx + x / draft.w
}

/// The tile whose rectangle has a site, if the site is live.
fn live_owner(draft: &Draft, x: u128, y: u128) -> Option<u32>
    requires { IsMap (draft_plane draft.now) }
    ensures { result ≡ (if is_live (draft_plane draft.now) (site x y) then Some (owner_of (draft_plane draft.now) (site x y)) else None) }
{
    if !in_plane(draft, x, y) {
        return None;
    }
    let tile = owner(draft, x as u32, y as u32);
    if is_on(draft, tile as u128) {
        Some(tile)
    } else {
        None
    }
}

/// How many tiles are on.
fn on_count(draft: &Draft) -> usize
    ensures { result ≡ tiles_on (draft_plane draft.now).off }
{
    draft.off.iter().filter(|o| !**o).count()
}

/// Whether a mark is set among those from one on.
fn is_off_from(off: &[bool], from: usize) -> bool
    requires { from ≤ length off.now }
    ensures { result ≡ list_any (λ o. o) (drop from off.now) }
{
    for i in from..off.len() {
        if off[i] {
            return true;
        }
    }
    false
}

/// Whether a tile may be switched off by the next `off` line.
fn off_in_range(draft: &Draft, tile: u128) -> bool
    requires { IsMap (draft_plane draft.now) }
    ensures { result ≡ off_in_range (draft_plane draft.now) tile }
{
    tile < (draft.tx * draft.ty) as u128
        && !is_off_from(draft.off.as_slice(), tile as usize)
        && on_count(draft) > 1
}

/// Whether an attempt is one of its tile.
fn try_in_range(draft: &Draft, tile: u128, x: u128, y: u128, seed: u64) -> bool
    requires { IsMap (draft_plane draft.now) }
    ensures { result ≡ try_in_range (draft_plane draft.now) tile x y seed }
{
    match live_owner(draft, x, y) {
        Some(owner) => owner as u128 == tile,
        None => false,
    }
}

/// Whether an atom is on a live site and its state fits.
fn atom_in_range(draft: &Draft, x: u128, y: u128, state: u128) -> bool
    requires { IsMap (draft_plane draft.now) }
    ensures { result ≡ atom_in_range (draft_plane draft.now) x y state }
{
    live_owner(draft, x, y).is_some() && state < 1u128 << STATE_BITS
}

/// Whether all are numbers of tiles that are on.
fn are_on(draft: &Draft, tiles: &[u128]) -> bool
    requires { IsMap (draft_plane draft.now) }
    ensures { result ≡ list_all (is_on (draft_plane draft.now)) tiles.now }
{
    tiles.iter().all(|t| is_on(draft, *t))
}

/// Whether a number lies between two others.
fn between(low: u128, high: u128, n: u128) -> bool
    ensures { result ≡ between low high n }
{
    low <= n && n <= high
}

/// Whether a number is one of columns, or of rows, that a tile may have.
fn is_side(n: u128) -> bool
    ensures { result ≡ between LEAST_SIDE MOST_SIDE n }
{
    between(LEAST_SIDE as u128, MOST_SIDE as u128, n)
}

/// Whether the numbers of a line are in their ranges.
#[tactic(auto, unfolding(crate::specs::Drafts::in_range))]
pub(crate) fn in_range(draft: &Draft, line: &Line) -> bool
    requires { IsMap (draft_plane draft.now) }
    ensures { result ≡ in_range (draft_plane draft.now) (line_value line.now) }
{
    match line {
        Line::Header { .. } => true,
        Line::Tiles { tx, ty } => between(1, MOST_ACROSS as u128, *tx)
            && between(1, MOST_ACROSS as u128, *ty),
        Line::Size { w, h } => is_side(*w) && is_side(*h),
        Line::Off { tile } => off_in_range(draft, *tile),
        Line::Seed { seed } => *seed < 1u128 << 64,
        Line::Attempts { .. } => true,
        Line::Try { tile, x, y, seed } => try_in_range(draft, *tile, *x, *y, *seed),
        Line::Atom { x, y, state, .. } => atom_in_range(draft, *x, *y, *state),
        Line::OrderSeed { seed } => *seed < 1u128 << 64,
        Line::Order { list } => are_on(draft, list.as_slice()),
    }
}

/// Whether a line asks for more than 1,000,000 attempts in total.
#[tactic(auto, unfolding(crate::specs::Drafts::too_many))]
pub(crate) fn too_many(draft: &Draft, line: &Line) -> bool
    ensures { result ≡ too_many (draft_value draft.now) (line_value line.now) }
{
    match line {
        Line::Attempts { count } => count.saturating_mul(on_count(draft) as u128)
            > MOST_ATTEMPTS as u128,
        Line::Try { .. } => draft.made as usize >= MOST_ATTEMPTS,
        _ => false,
    }
}
