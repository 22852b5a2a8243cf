//! Taking one line after others.
ghost use Rattle.std.specs.Prelude.{◌≡◌, ◌≤◌, ◌<◌, ◌++◌, All, IsFalse, IsTrue, OnOk, Some, length, option_map};
ghost use Rattle.std.specs.List.{list_all};
ghost use Rattle.tile_map.specs.Plane.{is_on};
ghost use Rattle.world_text.specs.Drafts.{IsDraft, in_range, put, step, too_many};
ghost use Rattle.world_text.specs.Line.{is_number};
ghost use Rattle.world_text.specs.Forms.{line_of};
ghost use Rattle.world_text.specs.Line.{atom, order, tiles, try};
ghost use Rattle.world_text.specs.Reading.{Steps, line_step};
ghost use Rattle.world_text.specs.Values.{draft_plane, draft_value, line_value};
ghost use Rattle.feast_base.specs.declared.limits.TheConstants.{MOST_ATTEMPTS, MOST_TILES};
ghost use Rattle.tile_map.specs.declared.limits.TheConstants.{MOST_ACROSS};
ghost use Rattle.window_sites.specs.declared.window.TheConstants.{MOST_COLUMNS};

use crate::draft::{Draft, empty_lists};
use crate::fault::WorldFault;
use crate::kind::{Kind, kind_of, may_follow, misplaced_fault};
use crate::line::Line;
use crate::ranges::{in_range, too_many};
use crate::take::line_of;
use draw_stream::Attempt;
use feast_base::NoMemory;
use std::alloc::Global;
use text_lines::is_skipped;

/// Adds an attempt to a tile's list.
fn put_try(draft: &mut Draft, tile: u32, x: u32, y: u32, seed: u64) -> Result<(), NoMemory>
    requires shape { IsDraft (draft_value draft.old) }
    requires tile { tile < length draft.old.tries.items }
    requires site { (x < MOST_COLUMNS) × (y < MOST_COLUMNS) }
    requires few { draft.old.made < MOST_ATTEMPTS }
    ensures { OnOk result (draft_value draft.new ≡ put 0 (draft_value draft.old) (try tile x y seed)) }
{
    let centre = y % draft.h * draft.w + x % draft.w;
    draft.tries[tile as usize].push(Attempt { centre, seed })?;
    draft.last = Kind::Try;
    draft.made += 1;
    Ok(())
}

/// Adds an atom.
#[tactic(auto, unfolding(crate::specs::Drafts::put))]
fn put_atom(
    alloc: Global,
    draft: &mut Draft,
    line: u64,
    x: u32,
    y: u32,
    name: &[u8],
    state: u128,
) -> Result<(), NoMemory>
    ensures { OnOk result (draft_value draft.new ≡ put line (draft_value draft.old) (atom x y name.now state)) }
{
    draft.atoms.push(alloc, line, (x, y), name, state)?;
    draft.last = Kind::Atom;
    Ok(())
}

/// Appends numbers of tiles.
fn push_tiles(order: &mut Vec<u32>, tiles: &[u128]) -> Result<(), NoMemory>
    requires { All (λ t. t < MOST_TILES) tiles.now }
    ensures { OnOk result (order.new.items ≡ order.old.items ++ tiles.now) }
{
    for t in tiles {
        order.push(*t as u32)?;
    }
    Ok(())
}

/// Adds tiles to the order.
#[tactic(auto, unfolding(crate::specs::Drafts::put))]
fn put_order(draft: &mut Draft, tiles: &[u128]) -> Result<(), NoMemory>
    requires tiles { IsTrue (list_all (is_on (draft_plane draft.old)) tiles.now) }
    requires shape { IsDraft (draft_value draft.old) }
    ensures { OnOk result (draft_value draft.new ≡ put 0 (draft_value draft.old) (order tiles.now)) }
{
    push_tiles(&mut draft.order, tiles)?;
    draft.last = Kind::Order;
    Ok(())
}

/// Sets how many tiles there are.
#[tactic(auto, unfolding(crate::specs::Drafts::put))]
fn put_tiles(alloc: Global, draft: &mut Draft, tx: u32, ty: u32) -> Result<(), NoMemory>
    requires { (tx ≤ MOST_ACROSS) × (ty ≤ MOST_ACROSS) }
    ensures { OnOk result (draft_value draft.new ≡ put 0 (draft_value draft.old) (tiles tx ty)) }
{
    let count = (tx * ty) as usize;
    draft.off = Vec::from_elem(alloc, false, count)?;
    draft.tries = empty_lists(alloc, count)?;
    draft.last = Kind::Tiles;
    draft.tx = tx;
    draft.ty = ty;
    Ok(())
}

/// Takes a line that adds to no list.
#[tactic(auto, unfolding(crate::specs::Drafts::put, crate::specs::Drafts::in_range, crate::specs::Drafts::too_many))]
fn put_number(draft: &mut Draft, line: &Line)
    requires shape { IsDraft (draft_value draft.old) }
    requires range { IsTrue (in_range (draft_plane draft.old) (line_value line.now)) }
    requires few { IsFalse (too_many (draft_value draft.old) (line_value line.now)) }
    requires number { IsTrue (is_number (line_value line.now)) }
    ensures { draft_value draft.new ≡ put 0 (draft_value draft.old) (line_value line.now) }
{
    match line {
        Line::Header { second } => draft.second = *second,
        Line::Size { w, h } => {
            draft.w = *w as u32;
            draft.h = *h as u32;
        }
        Line::Off { tile } => draft.off[*tile as usize] = true,
        Line::Seed { seed } => draft.origin = Some((*seed as u64, 0)),
        Line::Attempts { count } => put_count(draft, *count as u64),
        Line::OrderSeed { seed } => draft.order_seed = Some(*seed as u64),
        _ => unreachable!(),
    }
    draft.last = kind_of(line);
}

/// Sets how many attempts each tile draws.
fn put_count(draft: &mut Draft, count: u64)
    ensures { draft.new ≡ record draft.old { origin = option_map (λ o. (o.0, count)) draft.old.origin } }
{
    if let Some((seed, _)) = draft.origin {
        draft.origin = Some((seed, count));
    }
}

/// Takes a line that may come here.
#[tactic(auto, unfolding(crate::specs::Drafts::put, crate::specs::Drafts::in_range, crate::specs::Drafts::too_many))]
fn put(alloc: Global, draft: &mut Draft, n: u64, line: &Line) -> Result<(), NoMemory>
    requires shape { IsDraft (draft_value draft.old) }
    requires range { IsTrue (in_range (draft_plane draft.old) (line_value line.now)) }
    requires few { IsFalse (too_many (draft_value draft.old) (line_value line.now)) }
    ensures { OnOk result (draft_value draft.new ≡ put n (draft_value draft.old) (line_value line.now)) }
{
    match line {
        Line::Try { tile, x, y, seed } => put_try(draft, *tile as u32, *x as u32, *y as u32, *seed),
        Line::Atom { x, y, name, state } => {
            put_atom(alloc, draft, n, *x as u32, *y as u32, name, *state)
        }
        Line::Order { list } => put_order(draft, list.as_slice()),
        Line::Tiles { tx, ty } => put_tiles(alloc, draft, *tx as u32, *ty as u32),
        _ => {
            put_number(draft, line);
            Ok(())
        }
    }
}

/// Takes line `n`, or says why it can't be there.
#[tactic(auto, unfolding(crate::specs::Drafts::step))]
pub(crate) fn step_line(
    alloc: Global,
    draft: &mut Draft,
    n: u64,
    line: &Line,
) -> Result<(), WorldFault>
    requires { IsDraft (draft_value draft.old) }
    ensures { Steps n (step n (draft_value draft.old) (Some (line_value line.now))) (draft_value draft.new) result }
{
    if !may_follow(draft.second, draft.last, kind_of(line)) {
        return Err(misplaced_fault(draft.last, n));
    }
    if !in_range(draft, line) {
        return Err(WorldFault::OutOfRange(n));
    }
    if too_many(draft, line) {
        return Err(WorldFault::TooManyAttempts(n));
    }
    match put(alloc, draft, n, line) {
        Ok(()) => Ok(()),
        Err(NoMemory) => Err(WorldFault::NoMemory),
    }
}

/// Takes the text of line `n`, or says why it can't be there.
#[tactic(auto, unfolding(crate::specs::Drafts::step))]
fn step_text(alloc: Global, draft: &mut Draft, n: u64, text: &[u8]) -> Result<(), WorldFault>
    requires { IsDraft (draft_value draft.old) }
    ensures { Steps n (step n (draft_value draft.old) (line_of text.now)) (draft_value draft.new) result }
{
    match line_of(alloc, text) {
        Ok(Some(said)) => step_line(alloc, draft, n, &said),
        Ok(None) => Err(misplaced_fault(draft.last, n)),
        Err(NoMemory) => Err(WorldFault::NoMemory),
    }
}

/// Takes the text of line `n`, or passes over it, or says why it can't be there.
#[tactic(auto, unfolding(crate::specs::Reading::line_step))]
pub(crate) fn take_line(
    alloc: Global,
    draft: &mut Draft,
    n: u64,
    text: &[u8],
) -> Result<(), WorldFault>
    requires { IsDraft (draft_value draft.old) }
    ensures { Steps n (line_step n (draft_value draft.old) text.now) (draft_value draft.new) result }
{
    if is_skipped(text) {
        return Ok(());
    }
    step_text(alloc, draft, n, text)
}
