//! Judging a report in one line.
#![tactic(auto)]

mod comparing;
mod judgement;
mod judging;
mod read_report;

pub use judgement::{Judgement, judgement_line};
pub use judging::{Judged, judge, judge_on};
pub use read_report::ReadReport;
