//! How deep tokens nest.
ghost use Rattle.std.specs.Prelude.{◌≡◌, ◌+◌, ◌≤◌, IfOk};
ghost use Rattle.ulam_parse.specs.Nests.{nest_of};
ghost use Rattle.ulam_parse.specs.Nesting as spec;
ghost use Rattle.ulam_parse.specs.declared.deep.TheConstants.{MOST_DEPTH};

use crate::nesting::Nest;
use crate::symbol::{Symbol, Weight};
use crate::tables::weight_of;
use feast_base::NoMemory;
use std::alloc::Global;

/// The count before the first token.
pub fn outside(alloc: Global) -> Nest
    ensures { nest_of result ≡ spec.outside }
{
    Nest {
        inner: 0,
        outer: Vec::new(alloc),
        around: 0,
        last: Symbol::End,
    }
}

/// The depth of the nesting.
pub fn depth(nest: &Nest) -> u32
    requires { spec.depth (nest_of nest.now) ≤ MOST_DEPTH + 2 }
    ensures { result ≡ spec.depth (nest_of nest.now) }
{
    nest.inner + nest.around
}

/// The innermost count at a symbol, according to the one before it.
fn count_at(inner: u32, last: Symbol, symbol: Symbol) -> u32
    requires { inner ≤ MOST_DEPTH }
    ensures count { result ≡ spec.count_at inner last symbol }
    ensures small { result ≤ inner + 1 }
{
    if matches!(last, Symbol::Semi | Symbol::CloseBrace) && !matches!(symbol, Symbol::Else) {
        0
    } else if matches!(last, Symbol::CloseParen) && matches!(symbol, Symbol::OpenParen) {
        inner + 1
    } else {
        inner
    }
}

/// The count after a bracket opens.
#[tactic(auto, using(crate::proofs::Nests::reverse_push))]
fn open_bracket(nest: Nest, count: u32, last: Symbol) -> Result<Nest, NoMemory>
    requires few { nest.around + count ≤ MOST_DEPTH + 2 }
    ensures { IfOk result (λ n. nest_of n ≡ spec.open_bracket (nest_of nest).outer count last) }
{
    let Nest {
        inner: _,
        mut outer,
        around,
        last: _,
    } = nest;
    if outer.push(count).is_err() {
        return Err(NoMemory);
    }
    Ok(Nest {
        inner: 0,
        outer,
        around: around + count + 1,
        last,
    })
}

/// The count after the last open bracket closes, if there is one.
#[tactic(auto, using(crate::proofs::Nests::reverse_push))]
fn close_bracket(nest: Nest, count: u32, last: Symbol) -> Nest
    ensures { nest_of result ≡ spec.close_bracket (nest_of nest).outer count last }
{
    let Nest {
        inner: _,
        mut outer,
        around,
        last: _,
    } = nest;
    match outer.pop() {
        Some(inner) => Nest {
            inner,
            outer,
            around: around - inner - 1,
            last,
        },
        None => Nest {
            inner: count,
            outer,
            around,
            last,
        },
    }
}

/// The count with a new innermost count.
fn with_count(nest: Nest, inner: u32, last: Symbol) -> Nest
    ensures { nest_of result ≡ record { inner = inner; outer = (nest_of nest).outer; last = last } }
{
    let Nest {
        inner: _,
        outer,
        around,
        last: _,
    } = nest;
    Nest {
        inner,
        outer,
        around,
        last,
    }
}

/// The count after one more token.
pub fn step(nest: Nest, symbol: Symbol) -> Result<Nest, NoMemory>
    requires { spec.depth (nest_of nest) ≤ MOST_DEPTH }
    ensures steps { IfOk result (λ n. nest_of n ≡ spec.nest_step (nest_of nest) symbol) }
    ensures small { IfOk result (λ n. spec.depth (nest_of n) ≤ MOST_DEPTH + 2) }
{
    let count = count_at(nest.inner, nest.last, symbol);
    match weight_of(symbol) {
        Weight::Adds => Ok(with_count(nest, count + 1, symbol)),
        Weight::Clears => Ok(with_count(nest, 0, symbol)),
        Weight::Opens => open_bracket(nest, count, symbol),
        Weight::Closes => Ok(close_bracket(nest, count, symbol)),
        Weight::Nothing => Ok(with_count(nest, count, symbol)),
    }
}
