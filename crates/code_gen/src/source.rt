//! Where the functions of a program come from.

use crate::piece::{Key, Piece};
use feast_base::NoMemory;
use stack_code::{Answer, RawFunction};
use std::alloc::Global;

/// What is known of a function without its body.
#[derive(Clone, Copy)]
pub struct Head {
    /// How many parameters it has.
    pub params: u32,
    /// What it gives back.
    pub answer: Answer,
    /// The type of the atom that its end gives, if it gives an atom back.
    pub blank: u16,
}

/// A program of functions, each of which can be asked for by its key.
pub trait Source {
    ghost use Rattle.std.specs.Prelude.{◌≡◌, ◌≤◌, IfOk};
    ghost use Rattle.bit_field.specs.declared.TheConstants.{STATE_BITS};
    ghost use Rattle.code_gen.specs.Drafts.{Drafts, value_at};
    ghost use Rattle.code_gen.specs.Laws.{IsGood};
    ghost use Rattle.code_gen.specs.Views.{piece_of, key_of, IsHead};

    ghost drafts: { Self → Drafts };

    /// What is known of a function without its body.
    fn head(&self, key: Key) -> Head
        ensures { IsHead result (drafts self.now (key_of key)) };

    /// The body of a function. `NoMemory` if its pieces can't be kept.
    fn body(&self, alloc: Global, key: Key) -> Result<Piece, NoMemory>
        requires { IsGood (drafts self.now) (key_of key) }
        ensures { IfOk result (λ q. piece_of q ≡ (drafts self.now (key_of key)).body) };

    /// A function as the code has it, with its first instruction at a place. `NoMemory` if its name
    /// and its slots can't be kept.
    fn function(&self, alloc: Global, key: Key, first: u32) -> Result<RawFunction, NoMemory>
        requires { key.base ≤ STATE_BITS }
        ensures { IfOk result (λ f. f ≡ value_at (drafts self.now) first (key_of key)) };
}
