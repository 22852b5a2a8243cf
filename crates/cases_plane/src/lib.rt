//! Planes with their edges, needs, shared sites and registers, computed apart from the code. The
//! crate has only tests; they are above the plane, so that it is not proved again because of a
//! test.
#![tactic(auto)]

#[cfg(test)]
mod corners;
#[cfg(test)]
mod facts;
#[cfg(test)]
mod planes;
