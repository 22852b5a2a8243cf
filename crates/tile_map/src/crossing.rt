//! Which types may cross threads. Nothing calls these functions: the check of this crate fails if
//! one of the types can no longer be sent or shared.

use crate::map::Map;
use crate::needs::Needs;

/// Takes what may go to another thread.
fn sends<T: Send>(_value: &T) {}

/// Takes what several threads may see.
fn shares<T: Sync>(_value: &T) {}

/// A map may be seen by several threads, and go to another.
fn map_is_shared_and_sent(map: &Map) {
    shares(map);
    sends(map);
}

/// A list of needed edges may go to another thread.
fn needs_are_sent(needs: &Needs) {
    sends(needs);
}
