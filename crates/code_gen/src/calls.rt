//! The functions that a piece calls.

ghost use Rattle.std.specs.Prelude.{◌≡◌, OnOk, map};
ghost use Rattle.code_gen.specs.Pieces.{has_key, add_key, add_calls};
ghost use Rattle.code_gen.specs.Views.{piece_of, pieces_of, key_of};

use crate::piece::{Key, Piece};
use feast_base::NoMemory;

/// Whether a function is among these.
fn has(keys: &[Key], key: Key) -> bool
    ensures { result ≡ has_key (map key_of keys.now) (key_of key) }
{
    for k in keys {
        if k.class == key.class && k.function == key.function && k.base == key.base {
            return true;
        }
    }
    false
}

/// Appends a function, unless it is there.
fn add_one(keys: &mut Vec<Key>, key: Key) -> Result<(), NoMemory>
    ensures { OnOk result (map key_of keys.new.items ≡ add_key (map key_of keys.old.items) (key_of key)) }
{
    if has(keys, key) {
        return Ok(());
    }
    keys.push(key)?;
    Ok(())
}

/// Appends the functions that a piece calls, in the order of the calls, if they are new.
#[cycle(calls)]
pub fn add_calls(keys: &mut Vec<Key>, piece: &Piece) -> Result<(), NoMemory>
    ensures { OnOk result (map key_of keys.new.items ≡ add_calls (piece_of piece.now) (map key_of keys.old.items)) }
{
    match piece {
        Piece::Asks(key) => add_one(keys, *key),
        Piece::Seq(a, b) | Piece::Pick(a, b) | Piece::Ever(a, b) => {
            add_calls(keys, a)?;
            add_calls(keys, b)
        }
        Piece::Block(list) => add_all(keys, list.as_slice()),
        Piece::Only(a) => add_calls(keys, a),
        Piece::Loop(t, a, b) => {
            add_calls(keys, t)?;
            add_calls(keys, a)?;
            add_calls(keys, b)
        }
        _ => Ok(()),
    }
}

/// The same for pieces one after another.
#[cycle(calls)]
fn add_all(keys: &mut Vec<Key>, list: &[Piece]) -> Result<(), NoMemory>
    ensures { OnOk result (map key_of keys.new.items ≡ add_calls (pieces_of list.now) (map key_of keys.old.items)) }
{
    for piece in list {
        add_calls(keys, piece)?;
    }
    Ok(())
}
