//! The code of an element from its functions.

ghost use Rattle.std.specs.Prelude.{◌≡◌, ◌≤◌, ◌<◌, ◌+◌, ◌∷◌, ◌++◌, [], OnOk, IfOk, length};
ghost use Rattle.code_gen.specs.Pieces.{seq, size};
ghost use Rattle.code_gen.specs.Drafts.{code_of};
ghost use Rattle.code_gen.specs.Laws.{IsReady};
ghost use Rattle.code_gen.specs.Gathers.{IsGathered, Builds};
ghost use Rattle.code_gen.specs.Laying.{with_function, head_end};
ghost use Rattle.code_gen.specs.Views.{piece_of, key_of};
ghost use Rattle.stack_code.specs.declared.limits.TheConstants.{MOST_INSTRS};

use crate::emit::{emit, emit_end};
use crate::gather::{Gathered, gather};
use crate::piece::{Key, Piece};
use crate::size::size_of;
use crate::source::{Head, Source};
use feast_base::NoMemory;
use stack_code::{Code, Instr, RawCode, RawFunction, verify};
use std::alloc::Global;

/// Appends the instructions of a function: its body, in which `Out` and `Next` outside of loops
/// lead to its end, and its end.
fn lay_function(
    code: &mut Vec<Instr>,
    keys: &[Key],
    head: Head,
    body: &Piece,
) -> Result<(), NoMemory>
    requires few { length keys.now ≤ MOST_INSTRS }
    requires fits { length code.old.items + size (seq (piece_of body.now) (head_end head)) ≤ MOST_INSTRS }
    ensures { OnOk result (code.new.items ≡ with_function code.old.items keys.now head (piece_of body.now)) }
{
    let end = code.len() as u32 + size_of(body);
    emit(code, keys, end, end, body)?;
    emit_end(code, head.answer, head.blank)
}

/// Appends a function.
fn keep_function(functions: &mut Vec<RawFunction>, function: RawFunction) -> Result<(), NoMemory>
    ensures { OnOk result (functions.new.items ≡ functions.old.items ++ function ∷ []) }
{
    functions.push(function)?;
    Ok(())
}

/// The code of an element of this type number, from all its functions and their bodies.
fn lay_out<S: Source>(
    alloc: Global,
    source: &S,
    kind: u16,
    main: Key,
    gathered: &Gathered,
) -> Result<RawCode, NoMemory>
    requires ready { IsReady (S.drafts source.now) (key_of main) }
    requires gathered { IsGathered (S.drafts source.now) (key_of main) gathered.now }
    ensures { IfOk result (λ c. c ≡ code_of (S.drafts source.now) kind (key_of main)) }
{
    let keys = gathered.keys.as_slice();
    let mut code = Vec::new(alloc);
    let mut functions = Vec::new(alloc);
    for k in 0..keys.len() {
        let key = keys[k];
        let function = source.function(alloc, key, code.len() as u32)?;
        keep_function(&mut functions, function)?;
        lay_function(&mut code, keys, source.head(key), &gathered.bodies[k])?;
    }
    Ok(RawCode::new(kind, functions, code))
}

/// The code of an element of this type number, which begins with the function `main`. None if the
/// limits don't let it through: it would have more than 65,536 instructions, or more than 512
/// operands at some place. `NoMemory` if the functions, their bodies or the code can't be kept.
#[tactic(auto, using(crate::proofs::Built::verified))]
pub fn build<S: Source>(
    alloc: Global,
    source: &S,
    kind: u16,
    main: Key,
) -> Result<Option<Code>, NoMemory>
    requires { IsReady (S.drafts source.now) (key_of main) }
    ensures { Builds (S.drafts source.now) kind (key_of main) result }
{
    match gather(alloc, source, main)? {
        None => Ok(None),
        Some(gathered) => {
            let raw = lay_out(alloc, source, kind, main, &gathered)?;
            verify(alloc, raw)
        }
    }
}
