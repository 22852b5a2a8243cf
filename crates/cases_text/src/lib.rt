//! Lines and fields, worlds that are printed again, and grids that are put.
//! The tests are above the crates that read and print, so that none of these is proved again because
//! of a test.
#![tactic(auto)]

#[cfg(test)]
mod lines;
#[cfg(test)]
mod reports;
#[cfg(test)]
mod worlds;
