//! Chains: each refusal with its line, the numbers of legs, and chains that are printed again. The
//! tests are above the crate that reads, so that it isn't proved again because of a test.
#![tactic(auto)]

#[cfg(test)]
mod legs;
#[cfg(test)]
mod printed;
#[cfg(test)]
mod refused;
#[cfg(test)]
mod said;
