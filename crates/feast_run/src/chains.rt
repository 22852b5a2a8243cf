//! The stages of a replay, an audit and a rewind of a chain from its report on.
ghost use Rattle.std.specs.Prelude.{◌≡◌, ◌<◌, ◌^◌, IfOk, length};
ghost use Rattle.chain_run.specs.Answers.{AuditsLegs, ReplaysLegs, RewindsLegs, AreNamedIfAtoms};
ghost use Rattle.chain_text.specs.Values.{chain_value};
ghost use Rattle.feast_run.specs.Chains.{audit_legs_of, audit_legs_with, replay_legs_of, replay_legs_with, rewind_legs_of, rewind_legs_with};
ghost use Rattle.feast_run.specs.Outputs.{IsWritable, output_text};
ghost use Rattle.feast_run.specs.Tellings.{Moves, Tells};
ghost use Rattle.feast_run.specs.Values.{IsReadyChain, elements_value, ready_chain_value};
ghost use Rattle.report_text.specs.Report.{AreNamed};

use crate::halt::Halt;
use crate::journals::journal_halt;
use crate::loading::{JOURNAL_LIMIT, load_file};
use crate::output::{Output, ShownGrid};
use crate::rewinding::too_few;
use crate::worlds::ReadyChain;
use cell_grid::Grid;
use chain_run::{
    ChainJudgement, Rewound, audit_legs, chain_judgement_line, replay_legs, rewind_legs,
};
use feast_base::Shelf;
use report_text::JournalFault;
use std::alloc::Global;

/// The grid that the events in the bytes of a chain's report leave, by what its elements do.
fn grid_replayed(alloc: Global, ready: &ReadyChain, bytes: &[u8]) -> Result<Grid, JournalFault>
    requires ready { IsReadyChain ready.now }
    requires short { length bytes.now < 2 ^ 63 }
    ensures grid { ReplaysLegs (chain_value ready.now.chain) (elements_value ready.now.elements).meaning bytes.now result }
    ensures named { IfOk result (λ g. AreNamed (elements_value ready.now.elements).names g.atoms) }
{
    let mut actor = ready.elements.actor(alloc)?;
    replay_legs(
        alloc,
        &ready.chain,
        ready.elements.names(),
        bytes,
        &mut actor,
    )
}

/// The stages of a replay once the bytes of its report are loaded.
fn replay_loaded<'a>(
    alloc: Global,
    word: &'a str,
    bytes: &[u8],
    ready: ReadyChain,
) -> Result<Output, Halt<'a>>
    requires ready { IsReadyChain ready }
    requires short { length bytes.now < 2 ^ 63 }
    ensures tells { Tells output_text (replay_legs_with word.now (ready_chain_value ready) bytes.now) result }
    ensures writable { IfOk result IsWritable }
{
    match grid_replayed(alloc, &ready, bytes) {
        Ok(grid) => Ok(Output::Grid(ShownGrid {
            grid,
            elements: ready.into_elements(),
        })),
        Err(fault) => Err(journal_halt(word, fault)),
    }
}

/// The stages of a replay of a chain from its report on.
pub fn replay_chain<'a, F: Shelf>(
    alloc: Global,
    shelf: &mut F,
    word: &'a str,
    ready: ReadyChain,
) -> Result<Output, Halt<'a>>
    requires { IsReadyChain ready }
    ensures files { (F.state shelf.new).files ≡ (F.state shelf.old).files }
    ensures moves { Moves (F.state shelf.old) (F.state shelf.new) result }
    ensures tells { Tells output_text (replay_legs_of (F.state shelf.old).files word.now (ready_chain_value ready)) result }
    ensures writable { IfOk result IsWritable }
{
    let bytes = load_file(alloc, shelf, word, JOURNAL_LIMIT)?;
    replay_loaded(alloc, word, bytes.as_slice(), ready)
}

/// The judgement on the bytes of a chain's report, by what its elements do.
fn judged(alloc: Global, ready: &ReadyChain, bytes: &[u8]) -> Result<ChainJudgement, JournalFault>
    requires ready { IsReadyChain ready.now }
    requires short { length bytes.now < 2 ^ 63 }
    ensures { AuditsLegs (chain_value ready.now.chain) (elements_value ready.now.elements).meaning (elements_value ready.now.elements).names bytes.now result }
{
    let mut actor = ready.elements.actor(alloc)?;
    audit_legs(
        alloc,
        &ready.chain,
        ready.elements.names(),
        bytes,
        &mut actor,
    )
}

/// The stages of an audit once the bytes of its report are loaded.
fn audit_loaded<'a>(
    alloc: Global,
    word: &'a str,
    bytes: &[u8],
    ready: &ReadyChain,
) -> Result<Output, Halt<'a>>
    requires ready { IsReadyChain ready.now }
    requires short { length bytes.now < 2 ^ 63 }
    ensures tells { Tells output_text (audit_legs_with word.now (ready_chain_value ready.now) bytes.now) result }
    ensures writable { IfOk result IsWritable }
{
    match judged(alloc, ready, bytes) {
        Ok(judgement) => Ok(Output::Text(chain_judgement_line(alloc, judgement)?)),
        Err(fault) => Err(journal_halt(word, fault)),
    }
}

/// The stages of an audit of a chain from its report on.
pub fn audit_chain<'a, F: Shelf>(
    alloc: Global,
    shelf: &mut F,
    word: &'a str,
    ready: ReadyChain,
) -> Result<Output, Halt<'a>>
    requires { IsReadyChain ready }
    ensures files { (F.state shelf.new).files ≡ (F.state shelf.old).files }
    ensures moves { Moves (F.state shelf.old) (F.state shelf.new) result }
    ensures tells { Tells output_text (audit_legs_of (F.state shelf.old).files word.now (ready_chain_value ready)) result }
    ensures writable { IfOk result IsWritable }
{
    let bytes = load_file(alloc, shelf, word, JOURNAL_LIMIT)?;
    audit_loaded(alloc, word, bytes.as_slice(), &ready)
}

/// What a rewind of the bytes of a chain's report comes to, by what its elements do.
fn rewound(
    alloc: Global,
    ready: &ReadyChain,
    bytes: &[u8],
    left: u32,
) -> Result<Rewound, JournalFault>
    requires ready { IsReadyChain ready.now }
    requires short { length bytes.now < 2 ^ 63 }
    ensures rewinds { RewindsLegs (chain_value ready.now.chain) (elements_value ready.now.elements).meaning bytes.now left result }
    ensures named { IfOk result (AreNamedIfAtoms (elements_value ready.now.elements).names) }
{
    let mut actor = ready.elements.actor(alloc)?;
    let names = ready.elements.names();
    rewind_legs(
        alloc,
        &ready.chain,
        names,
        bytes,
        u64::from(left),
        &mut actor,
    )
}

/// The stages of a rewind once the bytes of its report are loaded.
fn rewind_loaded<'a>(
    alloc: Global,
    word: &'a str,
    bytes: &[u8],
    left: u32,
    ready: ReadyChain,
) -> Result<Output, Halt<'a>>
    requires ready { IsReadyChain ready }
    requires short { length bytes.now < 2 ^ 63 }
    ensures tells { Tells output_text (rewind_legs_with word.now left (ready_chain_value ready) bytes.now) result }
    ensures writable { IfOk result IsWritable }
{
    match rewound(alloc, &ready, bytes, left) {
        Ok(Rewound::Atoms(grid)) => Ok(Output::Grid(ShownGrid {
            grid,
            elements: ready.into_elements(),
        })),
        Ok(Rewound::TooFew(count)) => Err(too_few(word, count)),
        Err(fault) => Err(journal_halt(word, fault)),
    }
}

/// The stages of a rewind of a chain from its report on.
pub fn rewind_chain<'a, F: Shelf>(
    alloc: Global,
    shelf: &mut F,
    word: &'a str,
    left: u32,
    ready: ReadyChain,
) -> Result<Output, Halt<'a>>
    requires { IsReadyChain ready }
    ensures files { (F.state shelf.new).files ≡ (F.state shelf.old).files }
    ensures moves { Moves (F.state shelf.old) (F.state shelf.new) result }
    ensures tells { Tells output_text (rewind_legs_of (F.state shelf.old).files word.now left (ready_chain_value ready)) result }
    ensures writable { IfOk result IsWritable }
{
    let bytes = load_file(alloc, shelf, word, JOURNAL_LIMIT)?;
    rewind_loaded(alloc, word, bytes.as_slice(), left, ready)
}
