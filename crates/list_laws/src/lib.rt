//! Words and lemmas on truth values, numbers, options and lists that several crates cite. It knows
//! nothing of the simulator and has no code: everything is in `specs/` and `proofs/`.
#![tactic(auto)]
