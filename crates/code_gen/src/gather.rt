//! The functions of an element, by first call, and the limits of its code.

ghost use Rattle.std.specs.Prelude.{◌≡◌, ◌≤◌, ◌∷◌, ◌++◌, [], IfOk, IfSome, OnOk};
ghost use Rattle.code_gen.specs.Gathers.{Adds, Gathers, body_at, longer};
ghost use Rattle.code_gen.specs.Laws.{IsGood, IsReady};
ghost use Rattle.code_gen.specs.Views.{piece_of, key_of};
ghost use Rattle.stack_code.specs.declared.limits.TheConstants.{MOST_INSTRS};

use crate::calls::add_calls;
use crate::depth::{depth, end_depth};
use crate::piece::{Key, Piece};
use crate::size::{end_size, size_of};
use crate::source::Source;
use feast_base::NoMemory;
use stack_code::MOST_INSTRS;
use std::alloc::Global;

/// The functions of an element, and the body of each.
#[derive(Drop)]
pub struct Gathered {
    pub keys: Vec<Key>,
    pub bodies: Vec<Piece>,
}

/// How many instructions there are with one function more, if the limits let it through.
#[tactic(auto, unfolding(crate::specs::Gathers::longer))]
fn longer<S: Source>(source: &S, key: Key, body: &Piece, sum: u32) -> Option<u32>
    requires sum { sum ≤ MOST_INSTRS }
    requires body { piece_of body.now ≡ body_at (S.drafts source.now) (key_of key) }
    ensures { result ≡ longer (S.drafts source.now) (key_of key) sum }
{
    let head = source.head(key);
    let left = depth(source, body, 0)?;
    end_depth(head.answer, left)?;
    let size = size_of(body) + end_size(head.answer);
    if size > MOST_INSTRS - sum {
        None
    } else {
        Some(sum + size)
    }
}

/// Appends a body, unless memory runs out.
fn keep_body(bodies: &mut Vec<Piece>, body: Piece) -> Result<(), NoMemory>
    ensures { OnOk result (bodies.new.items ≡ bodies.old.items ++ body ∷ []) }
{
    bodies.push(body)?;
    Ok(())
}

/// One more body and the functions that it calls, unless memory runs out. How many instructions
/// there are with it, if the limits let it through.
fn add_body<S: Source>(
    alloc: Global,
    source: &S,
    key: Key,
    found: &mut Gathered,
    sum: u32,
) -> Result<Option<u32>, NoMemory>
    requires sum { sum ≤ MOST_INSTRS }
    requires good { IsGood (S.drafts source.now) (key_of key) }
    ensures count { IfOk result (λ more. longer (S.drafts source.now) (key_of key) sum ≡ more) }
    ensures added { IfOk result (λ more. IfSome more (λ n. Adds (S.drafts source.now) (key_of key) found.old found.new)) }
{
    let body = source.body(alloc, key)?;
    let Some(more) = longer(source, key, &body, sum) else {
        return Ok(None);
    };
    add_calls(&mut found.keys, &body)?;
    keep_body(&mut found.bodies, body)?;
    Ok(Some(more))
}

/// The first function of an element, and no bodies yet.
fn begin(alloc: Global, main: Key) -> Result<Gathered, NoMemory>
    ensures keys { IfOk result (λ x. x.keys.items ≡ main ∷ []) }
    ensures bodies { IfOk result (λ x. x.bodies.items ≡ []) }
{
    let mut keys = Vec::new(alloc);
    keys.push(main)?;
    let bodies = Vec::new(alloc);
    Ok(Gathered { keys, bodies })
}

/// All functions of an element that begins with this one, and their bodies. None if the limits of
/// code are passed. The list is gone through at most 65,537 times: each function has an
/// instruction, so code that calls more of them is too long anyway.
pub fn gather<S: Source>(alloc: Global, source: &S, main: Key) -> Result<Option<Gathered>, NoMemory>
    requires { IsReady (S.drafts source.now) (key_of main) }
    ensures { Gathers (S.drafts source.now) (key_of main) result }
{
    let mut found = begin(alloc, main)?;
    let mut sum: u32 = 0;
    for k in 0..65_537usize {
        if k >= found.keys.len() {
            return Ok(Some(found));
        }
        let key = found.keys[k];
        let step = add_body(alloc, source, key, &mut found, sum)?;
        match step {
            None => return Ok(None),
            Some(more) => sum = more,
        }
    }
    Ok(None)
}
