//! Which types may cross threads. Nothing calls these functions: the check of this crate fails if
//! one of the types can no longer be sent or shared.
use crate::edge::{Closed, Edge, Pass};
use crate::plain_board::PlainBoard;
use crate::shared_end::SharedEnd;

/// Takes what may go to another thread.
fn sends<T: Send>(_value: &T) {}

/// Takes what several threads may see.
fn shares<T: Sync>(_value: &T) {}

/// An edge may be seen by several threads, and go to another.
fn edge_is_shared_and_sent(edge: &Edge) {
    shares(edge);
    sends(edge);
}

/// A pass may go to another thread.
fn pass_is_sent(pass: &Pass) {
    sends(pass);
}

/// What is left of a closed edge may go to another thread.
fn closed_is_sent(closed: &Closed) {
    sends(closed);
}

/// A tile's end of its edges may go to another thread.
fn shared_end_is_sent(end: &SharedEnd) {
    sends(end);
}

/// A board of all edges may go to another thread.
fn plain_board_is_sent(board: &PlainBoard) {
    sends(board);
}
