//! Worlds and chains with their elements, and what is wrong with their texts.
ghost use Rattle.std.specs.Prelude.{◌≡◌, ◌≤◌, IfOk, length};
ghost use Rattle.chain_text.specs.Chain.{IsChain};
ghost use Rattle.chain_text.specs.Named.{chain_with_names};
ghost use Rattle.chain_text.specs.Values.{chain_value};
ghost use Rattle.feast_run.specs.Faults.{IsHalt, IsWorldHalt};
ghost use Rattle.feast_run.specs.Halting.{decides};
ghost use Rattle.feast_run.specs.Stages.{world_refused};
ghost use Rattle.feast_run.specs.Tellings.{Tells};
ghost use Rattle.element_set.specs.Sets.{Coded};
ghost use Rattle.world_text.specs.Named.{world_with_names};
ghost use Rattle.world_text.specs.Printed.{IsNamed};
ghost use Rattle.world_text.specs.Reading.{fault_of};
ghost use Rattle.world_text.specs.Values.{world_value};

use crate::elements::Elements;
use crate::halt::{Halt, Input, Refused};
use crate::loading::at_line;
use chain_text::{Chain, RawChain};
use feast_base::Name;
use std::alloc::Global;
use world_text::{RawWorld, World, WorldFault, name};

/// A world, and the elements of its atoms.
pub struct Ready {
    pub world: World,
    pub elements: Elements,
}

// Written by hand, not derived: so a caller drops it by one call.
impl Drop for Ready {
    fn drop(self) {
        let Ready { world, elements } = self;
    }
}

impl Ready {
    /// The elements alone.
    pub fn into_elements(self) -> Elements
        ensures { result ≡ self.elements }
    {
        let Ready { world: _, elements } = self;
        elements
    }
}

/// A chain, and the elements of its atoms.
pub struct ReadyChain {
    pub chain: Chain,
    pub elements: Elements,
}

// Written by hand, not derived: so a caller drops it by one call.
impl Drop for ReadyChain {
    fn drop(self) {
        let ReadyChain { chain, elements } = self;
    }
}

impl ReadyChain {
    /// The elements alone.
    pub fn into_elements(self) -> Elements
        ensures { result ≡ self.elements }
    {
        let ReadyChain { chain: _, elements } = self;
        elements
    }
}

/// The refusal of a world or a chain whose file has this word.
fn world_refusal<'a>(word: &'a str, code: u8, line: u64) -> Halt<'a>
    requires { Coded code }
    ensures { IsHalt (world_refused word.now (code, line)) result }
{
    Halt::Refused(Refused {
        input: Input::World,
        word,
        refusal: at_line(code, line, 0),
    })
}

/// The halt at a fault of a world or of a chain.
pub fn world_halt<'a>(word: &'a str, fault: WorldFault) -> Halt<'a>
    ensures { IsWorldHalt word.now (fault_of fault) result }
{
    match fault {
        WorldFault::BadHeader(line) => world_refusal(word, 70, line),
        WorldFault::BadLine(line) => world_refusal(word, 71, line),
        WorldFault::OutOfRange(line) => world_refusal(word, 72, line),
        WorldFault::UnknownElement(line) => world_refusal(word, 73, line),
        WorldFault::SiteTaken(line) => world_refusal(word, 74, line),
        WorldFault::TooManyAttempts(line) => world_refusal(word, 75, line),
        WorldFault::MissingLine(line) => world_refusal(word, 76, line),
        WorldFault::NoMemory => Halt::NoMemory,
    }
}

/// The world of a draft whose elements have these names.
pub fn world_with_names<'a>(
    alloc: Global,
    word: &'a str,
    draft: RawWorld,
    names: &[Name],
) -> Result<World, Halt<'a>>
    requires { length names.now ≤ 65535 }
    ensures tells { Tells world_value (decides (world_refused word.now) (world_with_names names.now draft)) result }
    ensures named { IfOk result (λ w. IsNamed names.now (world_value w)) }
{
    match name(alloc, draft, names) {
        Ok(world) => Ok(world),
        Err(fault) => Err(world_halt(word, fault)),
    }
}

/// The chain of a draft whose elements have these names.
pub fn chain_with_names<'a>(
    alloc: Global,
    word: &'a str,
    draft: RawChain,
    names: &[Name],
) -> Result<Chain, Halt<'a>>
    requires { length names.now ≤ 65535 }
    ensures tells { Tells chain_value (decides (world_refused word.now) (chain_with_names names.now draft)) result }
    ensures named { IfOk result (λ c. IsChain names.now (chain_value c)) }
{
    match chain_text::name(alloc, draft, names) {
        Ok(chain) => Ok(chain),
        Err(fault) => Err(world_halt(word, fault)),
    }
}
