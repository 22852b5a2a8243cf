//! Where the faults of element files stand: each at a place that the stage before it gave. A
//! property of all places of a file's bytes holds of the places of its tokens, of their trees, of
//! the trees after each stage, and of the place of each stage's fault. It has no code: everything is
//! in `specs/` and `proofs/`.
#![tactic(auto)]
