//! Atoms, windows, the streams of what tiles and events draw, grids, and acts on them, computed apart
//! from the code. The crate has only tests; they are above these crates, so that none of these is
//! proved again because of a test.
#![tactic(auto)]

#[cfg(test)]
mod acts;
#[cfg(test)]
mod atoms;
#[cfg(test)]
mod draws;
#[cfg(test)]
mod grids;
#[cfg(test)]
mod windows;
