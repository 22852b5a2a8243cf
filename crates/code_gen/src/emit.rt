//! From pieces to instructions.

ghost use Rattle.std.specs.Prelude.{◌≡◌, ◌≤◌, ◌+◌, ◌<◌, [], ◌∷◌, ◌++◌, OnOk, map, length};
ghost use Rattle.code_gen.specs.Pieces.{size, key_number};
ghost use Rattle.code_gen.specs.Drafts.{end_by};
ghost use Rattle.code_gen.specs.Laying.{code_and_piece, laid_if, LaysAnywhere};
ghost use Rattle.code_gen.specs.Views.{piece_of, pieces_of, key_of};
ghost use Rattle.code_gen.specs.declared.piece.Piece.TheVariants.{Block};
ghost use Rattle.stack_code.specs.declared.instr.Instr.TheVariants.{Turn, Jump};
ghost use Rattle.stack_code.specs.declared.limits.TheConstants.{MOST_INSTRS};

use crate::piece::{Key, Piece};
use crate::size::size_of;
use feast_base::NoMemory;
use stack_code::{Answer, Instr};

/// One more instruction.
fn put(code: &mut Vec<Instr>, instr: Instr) -> Result<(), NoMemory>
    ensures ok { OnOk result (code.new.items ≡ code.old.items ++ instr ∷ []) }
    ensures long { OnOk result (length code.new.items ≡ length code.old.items + 1) }
{
    code.push(instr)?;
    Ok(())
}

/// A turn, and a jump back.
fn turn_back(code: &mut Vec<Instr>, first: u32) -> Result<(), NoMemory>
    ensures ok { OnOk result (code.new.items ≡ code.old.items ++ Turn ∷ (Jump first ∷ [])) }
    ensures long { OnOk result (length code.new.items ≡ length code.old.items + 2) }
{
    put(code, Instr::Turn)?;
    put(code, Instr::Jump(first))
}

/// The number of a function among these: how many come before it.
fn number(keys: &[Key], key: Key) -> u32
    requires { length keys.now ≤ MOST_INSTRS }
    ensures { result ≡ key_number (map key_of keys.now) (key_of key) }
{
    let mut n: u32 = 0;
    for k in keys {
        if k.class == key.class && k.function == key.function && k.base == key.base {
            return n;
        }
        n += 1;
    }
    n
}

/// What becomes of a block: its pieces one after another. The call does nothing: its contract is
/// the law.
#[tactic(auto, using(crate::proofs::Blocks::block_is))]
fn block_law(list: &Vec<Piece>)
    ensures { piece_of (Block list.now) ≡ pieces_of list.now.items }
{}

/// Appends the instructions of a piece, in which `Out` leads to the place `out` and `Next` to the
/// place `next`, and functions are numbered as they are in `keys`.
#[cycle(emit)]
pub fn emit(
    code: &mut Vec<Instr>,
    keys: &[Key],
    out: u32,
    next: u32,
    piece: &Piece,
) -> Result<(), NoMemory>
    requires few { length keys.now ≤ MOST_INSTRS }
    requires fits { length code.old.items + size (piece_of piece.now) ≤ MOST_INSTRS }
    ensures long { OnOk result (length code.new.items ≡ length code.old.items + size (piece_of piece.now)) }
    ensures ok { OnOk result (code.new.items ≡ code_and_piece code.old.items keys.now out next (piece_of piece.now)) }
{
    let first = code.len() as u32;
    match piece {
        Piece::Nothing => Ok(()),
        Piece::Seq(a, b) => {
            emit(code, keys, out, next, a)?;
            emit(code, keys, out, next, b)
        }
        Piece::Block(list) => {
            block_law(list);
            emit_all(code, keys, out, next, list.as_slice())
        }
        Piece::Plain(instr) => put(code, *instr),
        Piece::Asks(key) => put(code, Instr::Call(number(keys, *key))),
        Piece::Pick(a, b) => {
            let other = first + 1 + size_of(a) + 1;
            emit_if(code, keys, out, next, other, a)?;
            put(code, Instr::Jump(other + size_of(b)))?;
            emit(code, keys, out, next, b)
        }
        Piece::Only(a) => emit_if(code, keys, out, next, first + 1 + size_of(a), a),
        Piece::Loop(t, a, b) => {
            let step = first + size_of(t) + 1 + size_of(a);
            let past = step + size_of(b) + 2;
            emit(code, keys, out, next, t)?;
            emit_if(code, keys, past, step, past, a)?;
            emit(code, keys, out, next, b)?;
            turn_back(code, first)
        }
        Piece::Ever(a, b) => {
            let step = first + size_of(a);
            let past = step + size_of(b) + 2;
            emit(code, keys, past, step, a)?;
            emit(code, keys, out, next, b)?;
            turn_back(code, first)
        }
        Piece::Out => put(code, Instr::Jump(out)),
        Piece::Next => put(code, Instr::Jump(next)),
        Piece::Gives => put(code, Instr::Return),
        Piece::Leaves => put(code, Instr::ReturnVoid),
    }
}

/// The same for a piece after a jump that leads to the place `past` if the number on top is 0.
#[cycle(emit)]
fn emit_if(
    code: &mut Vec<Instr>,
    keys: &[Key],
    out: u32,
    next: u32,
    past: u32,
    piece: &Piece,
) -> Result<(), NoMemory>
    requires few { length keys.now ≤ MOST_INSTRS }
    requires fits { length code.old.items + (1 + size (piece_of piece.now)) ≤ MOST_INSTRS }
    ensures long { OnOk result (length code.new.items ≡ length code.old.items + (1 + size (piece_of piece.now))) }
    ensures ok { OnOk result (code.new.items ≡ laid_if code.old.items keys.now out next past (piece_of piece.now)) }
{
    put(code, Instr::JumpFalse(past))?;
    emit(code, keys, out, next, piece)
}

/// The same for pieces one after another.
#[cycle(emit)]
fn emit_all(
    code: &mut Vec<Instr>,
    keys: &[Key],
    out: u32,
    next: u32,
    list: &[Piece],
) -> Result<(), NoMemory>
    requires few { length keys.now ≤ MOST_INSTRS }
    requires fits { length code.old.items + size (pieces_of list.now) ≤ MOST_INSTRS }
    ensures long { OnOk result (length code.new.items ≡ length code.old.items + size (pieces_of list.now)) }
    ensures ok { OnOk result (code.new.items ≡ code_and_piece code.old.items keys.now out next (pieces_of list.now)) }
{
    for piece in list {
        emit(code, keys, out, next, piece)?;
    }
    Ok(())
}

/// Appends the end of a function.
pub fn emit_end(code: &mut Vec<Instr>, answer: Answer, blank: u16) -> Result<(), NoMemory>
    ensures ok { OnOk result (LaysAnywhere code.old.items code.new.items (end_by answer blank)) }
{
    match answer {
        Answer::Nothing => put(code, Instr::ReturnVoid),
        Answer::Number => {
            put(code, Instr::PushNum(0))?;
            put(code, Instr::Return)
        }
        Answer::Atom => {
            put(code, Instr::PushAtom(blank))?;
            put(code, Instr::Return)
        }
    }
}
