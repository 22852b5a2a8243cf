//! Which types may cross threads. Nothing calls these functions: the check of this crate fails if
//! one of the types can no longer be sent.
use crate::worker::Worker;

/// Takes what may go to another thread.
fn sends<T: Send>(_value: &T) {}

/// A worker may go to another thread, if its behaviour and its drawn attempts may.
fn worker_is_sent<B: Send, D: Send>(worker: &Worker<B, D>) {
    sends(worker);
}
