//! Reading a world.
ghost use Rattle.std.specs.Prelude.{◌<◌, ◌^◌, length};
ghost use Rattle.world_text.specs.Reading.{Reads};

use crate::draft::nothing_said;
use crate::fault::WorldFault;
use crate::kind::missing;
use crate::raw_world::RawWorld;
use crate::step::take_line;
use std::alloc::Global;
use text_lines::next_line;

/// What a text says, before its atoms have their types. The answer to a bad text is its first line
/// with a fault: `BadHeader`, `BadLine`, `OutOfRange`, `TooManyAttempts` or `MissingLine`; within a
/// line `BadLine` comes before `OutOfRange`, and that before `TooManyAttempts`. `NoMemory` if there
/// is none for what the text says.
pub fn read(alloc: Global, bytes: &[u8]) -> Result<RawWorld, WorldFault>
    requires { length bytes.now < 2 ^ 63 }
    ensures { Reads bytes.now result }
{
    let mut draft = nothing_said(alloc)?;
    let mut n = 1u64;
    let mut left = bytes;
    while let Some((text, rest)) = next_line(left) {
        take_line(alloc, &mut draft, n, text)?;
        n += 1;
        left = rest;
    }
    match missing(draft.last, n) {
        Some(fault) => Err(fault),
        None => Ok(RawWorld::new(draft)),
    }
}
