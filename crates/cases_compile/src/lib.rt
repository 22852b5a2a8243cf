//! Two functions as pieces, with the code that they become. The crate has one test; it stands above the
//! compiler, so that this is proved once.
#![tactic(auto)]

#[cfg(test)]
mod two;
