//! Whole calls over files and a sink in memory that fail, their gates and their workers, and actors at
//! centres of no element. The crate has only tests; they are above the call, so that it is not proved
//! again because of a test.
#![tactic(auto)]

#[cfg(test)]
mod abreast;
#[cfg(test)]
mod actors;
#[cfg(test)]
mod calls;
#[cfg(test)]
mod chains;
#[cfg(test)]
mod faults;
#[cfg(test)]
mod gates;
#[cfg(test)]
mod texts;
#[cfg(test)]
mod workers;
