//! Small codes: what is read of them, those that no file can have, and how many steps their events take.
//! The crate has only tests. They are kept apart from the stack code and its machine so that those are
//! proved only once.
#![tactic(auto)]

#[cfg(test)]
mod acting;
#[cfg(test)]
mod codes;
#[cfg(test)]
mod events;
