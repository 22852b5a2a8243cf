//! The legs of a chain: runs that follow one another on one plane, with acts on the plane before each.
//!
//! A leg is run ([`run_leg`]) or stepped ([`step_leg`]) from the grid that the one before it left, and its
//! report is put ([`LegWriter`]); so memory is that of one leg. The reports of all legs are judged
//! ([`audit_legs`]), replayed ([`replay_legs`]) and rewound ([`rewind_legs`]) leg by leg, too.
//!
//! [`one_course`] says that everything that happens in a chain, its acts and its events, stands in one
//! course, and what one uncut grid comes to by it; [`cut_and_join`] says that a chain may be cut between
//! two legs, and its parts joined again; [`legs_are_runs`] says of which world each leg is a run, and
//! [`lone_legs`] that on one tile there is one list of legs; [`sound_audits`] says what `yes` is, and
//! [`cut_reports`] what is said of a report that is cut.
#![tactic(auto)]

mod auditing;
mod judgement;
mod law;
mod leg;
mod leg_read;
mod lines;
mod putting;
mod replaying;
mod reports;
mod rewinding;
mod running;
mod standing;
mod starting;
mod stepping;

pub use auditing::audit_legs;
pub use judgement::{ChainJudgement, chain_judgement_line};
pub use law::{cut_and_join, cut_reports, legs_are_runs, lone_legs, one_course, sound_audits};
pub use leg::LegOf;
pub use putting::LegWriter;
pub use replaying::replay_legs;
pub use rewinding::{Rewound, rewind_legs};
pub use running::run_leg;
pub use starting::first_grid;
pub use stepping::step_leg;
