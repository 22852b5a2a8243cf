//! Taking one token.
ghost use Rattle.std.specs.Prelude.{◌≡◌, ◌∷◌, [], ◌+◌, ◌<◌, ◌^◌, length, is_some, Ok, IfOk, IfSome, IfNone};
ghost use Rattle.ulam_tree.specs.RawViews.{word_of};
ghost use Rattle.ulam_parse.specs.Reading as spec;
ghost use Rattle.ulam_parse.specs.Marks.{tok_at, word_at, IsMark};
ghost use Rattle.ulam_parse.specs.Views.{Reads, Finds, from, first_word};

use crate::halt::Halt;
use crate::mark::Mark;
use crate::symbol::Symbol;
use crate::tape::Tape;
use feast_base::{Name, NoMemory};
use std::alloc::Global;
use ulam_tree::Word;

/// Whether two symbols are the same.
#[tactic(auto, unfolding(crate::specs::Reading::same))]
pub fn same(a: Symbol, b: Symbol) -> bool
    ensures { result ≡ spec.same a b }
{
    a == b
}

/// The number of tokens from an index to the end.
pub fn count_from(tape: &Tape, at: usize) -> usize
    ensures count { result ≡ length (from tape.now at) }
    ensures small { result < 2 ^ 63 }
{
    tape.marks.len().saturating_sub(at)
}

/// The token at an index.
pub fn mark_at(tape: &Tape, at: usize) -> Option<Mark>
    ensures some { IfSome result (λ m. from tape.now at ≡ tok_at tape.now.bytes.now m ∷ from tape.now (at + 1)) }
    ensures sound { IfSome result (λ m. IsMark tape.now.bytes.now m) }
    ensures small { IfSome result (λ m. at + 1 < 2 ^ 63) }
    ensures none { IfNone result (from tape.now at ≡ []) }
{
    if at < tape.marks.len() {
        Some(tape.marks[at])
    } else {
        None
    }
}

/// Whether the token at an index has this symbol.
pub fn sees(symbol: Symbol, tape: &Tape, at: usize) -> bool
    ensures { result ≡ spec.sees symbol (from tape.now at) }
{
    match mark_at(tape, at) {
        Some(first) => same(first.symbol, symbol),
        None => false,
    }
}

/// Whether the token after the one at an index has this symbol.
pub fn sees_second(symbol: Symbol, tape: &Tape, at: usize) -> bool
    ensures { result ≡ spec.sees_second symbol (from tape.now at) }
{
    match mark_at(tape, at) {
        Some(_) => sees(symbol, tape, at + 1),
        None => false,
    }
}

/// A token with this symbol.
pub fn expect(symbol: Symbol, tape: &Tape, at: usize) -> Result<(Mark, usize), Halt>
    ensures gives { Reads (word_at tape.now.bytes.now) (spec.expect symbol) tape.now at result }
    ensures symbol { IfOk result (λ x. x.0.symbol ≡ symbol) }
    ensures sound { IfOk result (λ x. IsMark tape.now.bytes.now x.0) }
{
    match mark_at(tape, at) {
        Some(first) => {
            if same(first.symbol, symbol) {
                Ok((first, at + 1))
            } else {
                Err(Halt::Left(count_from(tape, at)))
            }
        }
        None => Err(Halt::Left(0)),
    }
}

/// The index of the token after one with this symbol.
#[tactic(auto, unfolding(crate::specs::Views::first_word))]
pub fn skip(symbol: Symbol, tape: &Tape, at: usize) -> Result<usize, Halt>
    ensures { Finds (first_word (from tape.now at)) (spec.expect symbol) tape.now at result }
{
    match mark_at(tape, at) {
        Some(first) => {
            if same(first.symbol, symbol) {
                Ok(at + 1)
            } else {
                Err(Halt::Left(count_from(tape, at)))
            }
        }
        None => Err(Halt::Left(0)),
    }
}

/// The index of the token after one with this symbol, if it comes next.
#[tactic(auto, unfolding(crate::specs::Views::first_word))]
pub fn past(symbol: Symbol, tape: &Tape, at: usize) -> Option<usize>
    ensures seen { spec.sees symbol (from tape.now at) ≡ is_some result }
    ensures some { IfSome result (λ n. spec.expect symbol (from tape.now at) ≡ Ok (first_word (from tape.now at), from tape.now n)) }
{
    match mark_at(tape, at) {
        Some(first) => {
            if same(first.symbol, symbol) {
                Some(at + 1)
            } else {
                None
            }
        }
        None => None,
    }
}

/// The word of a token.
pub fn word(alloc: Global, tape: &Tape, mark: Mark) -> Result<Word, NoMemory>
    requires { IsMark tape.now.bytes.now mark }
    ensures { IfOk result (λ w. word_of w ≡ word_at tape.now.bytes.now mark) }
{
    Ok(Word {
        name: Name::new(alloc, &tape.bytes[mark.first..mark.end])?,
        place: mark.place,
    })
}
