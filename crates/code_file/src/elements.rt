//! Reading elements.
ghost use Rattle.std.specs.Prelude.{◌≡◌, ◌≤◌, ◌+◌, ◌<◌, [], length};
ghost use Rattle.code_file.specs.Reading.{Gives, alone, body_at, element_at, elements_at, elements_from};
ghost use Rattle.code_file.specs.declared.elements.TheConstants.{MOST_ELEMENTS};

use crate::functions::functions;
use crate::halt::Halt;
use crate::instrs::instrs;
use crate::names::{NameForm, name};
use crate::numbers::number;
use feast_base::Name;
use stack_code::RawCode;
use std::alloc::Global;
use std::marker::Model;

/// The most elements of a code file.
pub const MOST_ELEMENTS: u16 = 256;

/// An element whose code has not been verified yet.
#[derive(Drop)]
pub struct Draft {
    pub name: Name,
    pub code: RawCode,
}

impl Model for Draft {
    ghost use Rattle.code_file.specs.Form.{ElementValue};

    ghost Value = { ElementValue };

    ghost view = { λ d. record { name = d.name; code = d.code } };
}

/// An element of a type number, of a file with this many elements, and the remaining bytes.
#[tactic(auto, unfolding(crate::specs::Reading::element_at))]
fn element(alloc: Global, most: u16, kind: u16, bytes: &[u8]) -> Result<(Draft, &[u8]), Halt>
    ensures { Gives (λ x. (x.0, x.1.now)) result (element_at most kind bytes.now) }
{
    let (name, rest) = name(NameForm::OfElement, bytes)?;
    let name = Name::new(alloc, name)?;
    let (functions, rest) = functions(alloc, rest)?;
    let (instrs, rest) = instrs(alloc, most, rest)?;
    let code = RawCode::new(kind, functions, instrs);
    Ok((Draft { name, code }, rest))
}

/// This many elements, and the remaining bytes. Memory is allocated as they are read.
fn elements_in(alloc: Global, count: u16, bytes: &[u8]) -> Result<(Vec<Draft>, &[u8]), Halt>
    requires { count ≤ MOST_ELEMENTS }
    ensures { Gives (λ x. (x.0.items, x.1.now)) result (elements_from count count [] bytes.now) }
{
    let mut elements = Vec::new(alloc);
    let mut rest = bytes;
    for done in 0..count {
        let (element, after) = element(alloc, count, done + 1, rest)?;
        elements.push(element)?;
        rest = after;
    }
    Ok((elements, rest))
}

/// A counted list of elements, and the remaining bytes.
#[tactic(auto, unfolding(crate::specs::Reading::elements_at))]
fn elements(alloc: Global, bytes: &[u8]) -> Result<(Vec<Draft>, &[u8]), Halt>
    ensures { Gives (λ x. (x.0.items, x.1.now)) result (elements_at bytes.now) }
{
    let (count, rest) = number(bytes, 2, 0, u64::from(MOST_ELEMENTS))?;
    elements_in(alloc, count as u16, rest)
}

/// Everything after the first 8 bytes of a file.
#[tactic(auto, unfolding(crate::specs::Reading::body_at))]
pub fn body(alloc: Global, bytes: &[u8]) -> Result<Vec<Draft>, Halt>
    ensures { Gives (λ v. v.items) result (body_at bytes.now) }
{
    let (elements, rest) = elements(alloc, bytes)?;
    if rest.is_empty() {
        Ok(elements)
    } else {
        Err(Halt::Bad(rest.len()))
    }
}
