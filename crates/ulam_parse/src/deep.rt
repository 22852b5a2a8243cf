//! The first token at which tokens nest too deeply.
ghost use Rattle.std.specs.Prelude.{◌≡◌, IfOk};
ghost use Rattle.ulam_parse.specs.Nesting.{outside};
ghost use Rattle.ulam_parse.specs.Sentences.{deep_from};
ghost use Rattle.ulam_parse.specs.Views.{from};

use crate::nest;
use crate::take::mark_at;
use crate::tape::Tape;
use feast_base::NoMemory;
use std::alloc::Global;

/// How deep tokens nest at most.
const MOST_DEPTH: u32 = 64;

/// The index of the first token at which the nesting is too deep.
#[tactic(auto, using(crate::proofs::Deeper::deep_none))]
pub fn first_deep(alloc: Global, tape: &Tape) -> Result<Option<usize>, NoMemory>
    ensures { IfOk result (λ d. deep_from 0 outside (from tape.now 0) ≡ d) }
{
    let mut nest = nest::outside(alloc);
    for at in 0..tape.marks.len() {
        let Some(mark) = mark_at(tape, at) else {
            return Ok(None);
        };
        nest = nest::step(nest, mark.symbol)?;
        if nest::depth(&nest) > MOST_DEPTH {
            return Ok(Some(at));
        }
    }
    Ok(None)
}
