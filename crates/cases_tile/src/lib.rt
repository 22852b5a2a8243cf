//! Tests of a tile: its phases, its entries, and its copy of the sites. The crate has only tests; they
//! are above the caches and the phases, so that these are proved once.
#![tactic(auto)]

#[cfg(test)]
mod alone;
#[cfg(test)]
mod border;
#[cfg(test)]
mod counted;
#[cfg(test)]
mod day;
#[cfg(test)]
mod pair;
