//! Worked runs, with their atoms and their journals: tiles that act in turn on the board of one
//! thread, and a worker for each tile over edges that the workers share. The crate has only tests;
//! they are above settling and the workers, so that these are proved once.
#![tactic(auto)]

#[cfg(test)]
mod acts;
#[cfg(test)]
mod alone;
#[cfg(test)]
mod driving;
#[cfg(test)]
mod paces;
#[cfg(test)]
mod pauses;
#[cfg(test)]
mod plans;
#[cfg(test)]
mod rows;
#[cfg(test)]
mod running;
#[cfg(test)]
mod runs;
