//! Reading a chain.
ghost use Rattle.std.specs.Prelude.{◌≡◌, ◌<◌, ◌^◌, length};
ghost use Rattle.chain_text.specs.Reading.{Reads, is_chain};

use crate::draft::nothing_said;
use crate::raw_chain::RawChain;
use crate::stage::missing;
use crate::step::take_line;
use std::alloc::Global;
use text_lines::{is_skipped, next_line};
use world_text::WorldFault;

/// Whether a text is to be read as a chain: its first line that is not skipped is `chain 1`.
#[tactic(auto, using(crate::proofs::Begins::begins_here, crate::proofs::Begins::begins_later, crate::proofs::Begins::begins_never, text_lines::proofs::Cuts::lines_none))]
pub fn is_chain(bytes: &[u8]) -> bool
    ensures { result ≡ is_chain bytes.now }
{
    let mut left = bytes;
    while let Some((text, rest)) = next_line(left) {
        if !is_skipped(text) {
            return text == b"chain 1".as_slice();
        }
        left = rest;
    }
    false
}

/// What a text says, before its atoms have their types. The answer to a bad text is its first line
/// with a fault: `BadHeader`, `BadLine`, `OutOfRange`, `TooManyAttempts` or `MissingLine`; within a
/// line `BadLine` comes before `OutOfRange`, and that before `TooManyAttempts`. `NoMemory` if there
/// is none for what the text says.
pub fn read(alloc: Global, bytes: &[u8]) -> Result<RawChain, WorldFault>
    requires { length bytes.now < 2 ^ 63 }
    ensures { Reads bytes.now result }
{
    let mut draft = nothing_said(alloc)?;
    let mut n = 1u64;
    let mut left = bytes;
    while let Some((text, rest)) = next_line(left) {
        take_line(alloc, &mut draft, n, text)?;
        n += 1;
        left = rest;
    }
    match missing(draft.stage, draft.world.last(), n) {
        Some(fault) => Err(fault),
        None => Ok(RawChain::new(draft)),
    }
}
