//! Taking one line after others.
ghost use Rattle.std.specs.Prelude.{◌≡◌, ◌≤◌, ◌++◌, ◌∷◌, [], IfOk, IsFalse, IsTrue, OnOk, Some};
ghost use Rattle.chain_text.specs.Drafts.{IsChainDraft, IsSmall, IsSmallAct, asks_too_many, in_range, journal_stage, numbered, plain_stage, put_line, raw_act, rectangle_of, step, step_line, step_own, with_world};
ghost use Rattle.chain_text.specs.Forms.{line_of};
ghost use Rattle.chain_text.specs.Line.{IsFormed};
ghost use Rattle.chain_text.specs.Reading.{Steps, line_step};
ghost use Rattle.chain_text.specs.Values.{act_value, area_value, draft_value, line_value};
ghost use Rattle.chain_text.specs.declared.limits.TheConstants.{LAST_LEG};
ghost use Rattle.world_text.specs.Drafts.{IsDraft, step as world_step};
ghost use Rattle.world_text.specs.Line.{IsFormed as IsWorldFormed};
ghost use Rattle.world_text.specs.Values.{line_value as world_line_value};

use crate::chain::Journal;
use crate::draft::Draft;
use crate::line::{ActLine, Area, Line};
use crate::ranges::{asks_too_many, in_range};
use crate::raw_act::{NumberedAct, RawAct};
use crate::stage::{Stage, may_come};
use crate::take::line;
use cell_grid::Rectangle;
use feast_base::{Name, NoMemory};
use plane_acts::{Act, Chance};
use std::alloc::Global;
use text_lines::is_skipped;
use world_text::{WorldFault, misplaced_fault};

/// The rectangle of an area.
fn rectangle(area: &Area) -> Rectangle
    requires { IsSmall (area_value area.now) }
    ensures { result ≡ rectangle_of (area_value area.now) }
{
    Rectangle {
        left: area.x as u32,
        top: area.y as u32,
        right: (area.x + area.w) as u32,
        bottom: (area.y + area.h) as u32,
    }
}

/// An act before its atom's type has a number.
fn raw_act(alloc: Global, act: &ActLine) -> Result<RawAct, NoMemory>
    requires { IsSmallAct (act_value act.now) }
    ensures { IfOk result (λ a. a ≡ raw_act (act_value act.now)) }
{
    match act {
        ActLine::Clear(area) => Ok(RawAct::Known(Act::Clear(rectangle(area)))),
        ActLine::Put(area, name, state) => {
            let name = Name::new(alloc, name)?;
            Ok(RawAct::Named(rectangle(area), name, *state))
        }
        ActLine::Erase(billionths, area) => Ok(RawAct::Known(Act::Erase(
            Chance::of_billionths(*billionths),
            rectangle(area),
        ))),
        ActLine::Flip(billionths, area) => Ok(RawAct::Known(Act::Flip(
            Chance::of_billionths(*billionths),
            rectangle(area),
        ))),
        ActLine::Attempts(count) => Ok(RawAct::Known(Act::Attempts(*count as u32))),
    }
}

/// Adds an act to some.
fn push_act(
    alloc: Global,
    acts: &mut Vec<NumberedAct>,
    line: u64,
    number: u128,
    act: &ActLine,
) -> Result<(), NoMemory>
    requires act { IsSmallAct (act_value act.now) }
    requires number { number ≤ LAST_LEG }
    ensures { OnOk result (acts.new.items ≡ acts.old.items ++ numbered line number (act_value act.now) ∷ []) }
{
    let act = raw_act(alloc, act)?;
    acts.push(NumberedAct {
        line,
        number: number as u32,
        act,
    })?;
    Ok(())
}

/// The stage after a line that says which reports there are.
fn journal_stage(journal: Journal) -> Stage
    ensures { result ≡ journal_stage journal }
{
    match journal {
        Journal::Counts { .. } => Stage::Counted,
        _ => Stage::Recorded,
    }
}

/// Takes line `n`, which adds an act or sets a number of the chain.
#[tactic(auto, using(crate::proofs::Small::small_every, crate::proofs::Small::small_once), unfolding(crate::specs::Drafts::put_line, crate::specs::Drafts::in_range))]
fn put_line(alloc: Global, draft: &mut Draft, n: u64, line: &Line) -> Result<(), NoMemory>
    requires shape { IsChainDraft (draft_value draft.old) }
    requires formed { IsFormed (line_value line.now) }
    requires range { IsTrue (in_range (draft_value draft.old) (line_value line.now)) }
    requires few { IsFalse (asks_too_many (draft_value draft.old) (line_value line.now)) }
    ensures { OnOk result (draft_value draft.new ≡ put_line n (draft_value draft.old) (line_value line.now)) }
{
    match line {
        Line::Legs(count) => {
            draft.stage = Stage::Legs;
            draft.legs = *count as u32;
        }
        Line::First(leg) => {
            draft.stage = Stage::First;
            draft.first = *leg as u32;
        }
        Line::Journal(journal) => {
            draft.stage = journal_stage(*journal);
            draft.journal = *journal;
        }
        Line::Print(legs) => {
            draft.stage = Stage::Print;
            draft.journal = Journal::Counts {
                print: *legs as u32,
            };
        }
        Line::Every(period, act) => {
            push_act(alloc, &mut draft.every, n, *period, act)?;
            draft.stage = Stage::Every;
        }
        Line::Act(leg, act) => {
            push_act(alloc, &mut draft.once, n, *leg, act)?;
            draft.stage = Stage::Once;
            draft.leg = *leg as u32;
        }
        _ => {}
    }
    Ok(())
}

/// Takes line `n`, which is one of the chain's own, or says why it can't be there.
fn step_own(alloc: Global, draft: &mut Draft, n: u64, line: &Line) -> Result<(), WorldFault>
    requires shape { IsChainDraft (draft_value draft.old) }
    requires formed { IsFormed (line_value line.now) }
    ensures { Steps n (step_own n (draft_value draft.old) (line_value line.now)) (draft_value draft.new) result }
{
    if !in_range(draft, line) {
        return Err(WorldFault::OutOfRange(n));
    }
    if asks_too_many(draft, line) {
        return Err(WorldFault::TooManyAttempts(n));
    }
    put_line(alloc, draft, n, line)?;
    Ok(())
}

/// The stage after a line that a world has too.
fn plain_stage(line: &world_text::Line) -> Stage
    ensures { result ≡ plain_stage (world_line_value line.now) }
{
    match line {
        world_text::Line::Atom { .. } => Stage::Atom,
        _ => Stage::Plane,
    }
}

/// Takes line `n`, which a world has too, or says why it can't be there.
fn step_plain(
    alloc: Global,
    draft: &mut Draft,
    n: u64,
    line: &world_text::Line,
) -> Result<(), WorldFault>
    requires shape { IsDraft draft.old.world }
    requires formed { IsWorldFormed (world_line_value line.now) }
    ensures { Steps n (with_world (draft_value draft.old) (plain_stage (world_line_value line.now)) (world_step n draft.old.world (Some (world_line_value line.now)))) (draft_value draft.new) result }
{
    draft.world.take(alloc, n, line)?;
    draft.stage = plain_stage(line);
    Ok(())
}

/// Takes line `n`, which may come here, or says why it can't be there.
#[tactic(auto, unfolding(crate::specs::Drafts::step_line))]
fn step_line(alloc: Global, draft: &mut Draft, n: u64, line: &Line) -> Result<(), WorldFault>
    requires shape { IsChainDraft (draft_value draft.old) }
    requires formed { IsFormed (line_value line.now) }
    ensures { Steps n (step_line n (draft_value draft.old) (line_value line.now)) (draft_value draft.new) result }
{
    match line {
        Line::Header => { step_plain(alloc, draft, n, &world_text::Line::Header { second: true }) }
        Line::Plain(plain) => step_plain(alloc, draft, n, plain),
        _ => step_own(alloc, draft, n, line),
    }
}

/// Takes the text of line `n`, or says why it can't be there.
#[tactic(auto, using(crate::proofs::Formed::line_formed), unfolding(crate::specs::Drafts::step))]
fn step_text(alloc: Global, draft: &mut Draft, n: u64, text: &[u8]) -> Result<(), WorldFault>
    requires { IsChainDraft (draft_value draft.old) }
    ensures { Steps n (step n (draft_value draft.old) (line_of text.now)) (draft_value draft.new) result }
{
    let last = draft.world.last();
    match line(alloc, text)? {
        Some(said) if may_come(draft.stage, last, &said) => step_line(alloc, draft, n, &said),
        _ => Err(misplaced_fault(last, n)),
    }
}

/// Takes the text of line `n`, or passes over it, or says why it can't be there.
#[tactic(auto, unfolding(crate::specs::Reading::line_step))]
pub(crate) fn take_line(
    alloc: Global,
    draft: &mut Draft,
    n: u64,
    text: &[u8],
) -> Result<(), WorldFault>
    requires { IsChainDraft (draft_value draft.old) }
    ensures { Steps n (line_step n (draft_value draft.old) text.now) (draft_value draft.new) result }
{
    if is_skipped(text) {
        return Ok(());
    }
    step_text(alloc, draft, n, text)
}
