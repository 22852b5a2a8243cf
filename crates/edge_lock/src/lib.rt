//! The words that two neighbouring tiles share: one try-lock for each edge, with its registers.
//!
//! Register 0 of an edge is its clock. Shared site k has register `1 + 2 * k`, the low 64 bits of its
//! atom, and register `2 + 2 * k`, its stamp in the high 32 bits and the high 32 bits of its atom below.
//! The news words of end 0 follow, then those of end 1: one bit for each shared site, 64 bits a word.
//! `Board` is what a tile sees of its edges. `PlainBoard` has all edges of a plane for one thread,
//! `SharedEnd` is one tile's end of edges that other threads use too.
#![tactic(auto)]

mod board;
mod crossing;
mod edge;
mod edge_sizes;
mod edge_steps;
mod history;
mod plain_board;
mod plain_edge;
mod plain_steps;
mod registers;
mod shared_end;

pub use board::{Board, Take};
pub use edge::{Closed, Edge, Pass};
pub use edge_sizes::EdgeSizes;
pub use history::{Access, Hold, Refusal};
pub use plain_board::PlainBoard;
pub use shared_end::SharedEnd;
