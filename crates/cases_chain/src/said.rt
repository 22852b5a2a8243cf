//! What texts say.
ghost use Rattle.std.specs.Prelude.{◌≡◌, ◌<◌, ◌≤◌, ◌^◌, IfOk, length};
ghost use Rattle.chain_text.specs.Chain.{IsChain};
ghost use Rattle.chain_text.specs.Printed.{IsNamed};
ghost use Rattle.chain_text.specs.Values.{chain_value};

use chain_text::{Chain, name, read};
use feast_base::{Name, NoMemory};
use std::alloc::Global;
use world_text::WorldFault;

/// The elements' names.
pub fn names(alloc: Global) -> Result<Vec<Name>, NoMemory>
    ensures { IfOk result (λ v. length v.items ≡ 2) }
{
    let mut names = Vec::new(alloc);
    names.push(Name::new(alloc, b"Mouse")?)?;
    names.push(Name::new(alloc, b"Wall")?)?;
    Ok(names)
}

/// The chain that a text says, or its first fault.
pub fn chain(alloc: Global, text: &[u8], names: &[Name]) -> Result<Chain, WorldFault>
    requires names { length names.now ≤ 65535 }
    requires text { length text.now < 2 ^ 63 }
    ensures named { IfOk result (λ c. IsNamed names.now (chain_value c)) }
    ensures valid { IfOk result (λ c. IsChain names.now (chain_value c)) }
{
    let raw = read(alloc, text)?;
    name(alloc, raw, names)
}

/// The code of a text's first fault and the number of its line. 0 and 0 if it is a chain, or there
/// was no memory.
pub fn fault(alloc: Global, text: &[u8], names: &[Name]) -> (u32, u64)
    requires names { length names.now ≤ 65535 }
    requires text { length text.now < 2 ^ 63 }
{
    match chain(alloc, text, names) {
        Ok(_) | Err(WorldFault::NoMemory) => (0, 0),
        Err(WorldFault::BadHeader(line)) => (70, line),
        Err(WorldFault::BadLine(line)) => (71, line),
        Err(WorldFault::OutOfRange(line)) => (72, line),
        Err(WorldFault::UnknownElement(line)) => (73, line),
        Err(WorldFault::SiteTaken(line)) => (74, line),
        Err(WorldFault::TooManyAttempts(line)) => (75, line),
        Err(WorldFault::MissingLine(line)) => (76, line),
    }
}
