//! The types that cross threads. Nothing calls these functions: the check of this crate fails if one
//! of the types can no longer be sent or shared.

use crate::actor::CodeActor;
use crate::set::CodeSet;

/// Takes what may go to another thread.
fn sends<T: Send>(_value: &T) {}

/// Takes what several threads may see.
fn shares<T: Sync>(_value: &T) {}

/// The codes of a file may be seen by several threads.
fn set_is_shared(set: &CodeSet) {
    shares(set);
}

/// What acts by them may go to another thread.
fn actor_is_sent(actor: &CodeActor<'_>) {
    sends(actor);
}
