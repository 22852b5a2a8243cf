//! Tests of edges: both ends in turn on one thread, and in two threads that meet. The crate has only
//! tests; they are above the edges, so that these are proved once.
#![tactic(auto)]

#[cfg(test)]
mod counting;
#[cfg(test)]
mod ends;
