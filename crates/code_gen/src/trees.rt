//! Typed trees as the source of the functions of a program.
use crate::classes::{Classes, Scene};
use crate::kinds::answer_of;
use crate::locals::{operands, slot_types};
use crate::lookup::{function, type_number};
use crate::piece::{Key, Piece};
use crate::source::{Head, Source};
use crate::statement::body;
use feast_base::{Name, NoMemory};
use stack_code::RawFunction;
use std::alloc::Global;

impl Source for Classes<'_> {
    ghost use Rattle.code_gen.specs.Scheme.{draft_of};
    ghost use Rattle.code_gen.specs.Seen.{program_of};

    ghost drafts = { λ s. draft_of (program_of s) };

    fn head(&self, key: Key) -> Head {
        let found = function(self, key.class, key.function);
        Head {
            params: found.params.len() as u32,
            answer: answer_of(found.result),
            blank: type_number(self, found.result),
        }
    }

    fn body(&self, alloc: Global, key: Key) -> Result<Piece, NoMemory> {
        let found = function(self, key.class, key.function);
        let slots = slot_types(alloc, found)?;
        let scene = Scene {
            classes: self,
            base: key.base,
            slots: slots.as_slice(),
            result: found.result,
        };
        body(alloc, &scene, found.body)
    }

    fn function(&self, alloc: Global, key: Key, first: u32) -> Result<RawFunction, NoMemory> {
        let found = function(self, key.class, key.function);
        let name = Name::new(alloc, found.name)?;
        let types = slot_types(alloc, found)?;
        let slots = operands(alloc, types.as_slice())?;
        let params = found.params.len() as u32;
        Ok(RawFunction::new(
            name,
            key.base,
            first,
            params,
            slots,
            answer_of(found.result),
        ))
    }
}
