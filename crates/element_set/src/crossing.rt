//! Which types may cross threads. Nothing calls these functions: the check of this crate fails if
//! one of the types can no longer be sent or shared.

use crate::actor::Actor;
use crate::set::ElementSet;

/// Takes what may go to another thread.
fn sends<T: Send>(_value: &T) {}

/// Takes what several threads may see.
fn shares<T: Sync>(_value: &T) {}

/// A set of elements may be seen by several threads.
fn set_is_shared(set: &ElementSet) {
    shares(set);
}

/// What acts as they do may go to another thread.
fn actor_is_sent(actor: &Actor<'_>) {
    sends(actor);
}
