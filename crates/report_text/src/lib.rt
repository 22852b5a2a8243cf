//! The text of the report of a run: printed, put to a sink in pieces of one size, and read again.
//!
//! A whole report is the line `feast 1`, the number of sites that are not empty and a line for each
//! of them in row order, and then the journal: the number of events and a line for each, and the
//! number of attempts that were given up and a line for each.
//!
//! A short report, which begins with `feast 2`, leaves out what the plan of the run says: the site
//! and the seed of each event, and the site of each attempt that was given up. It is read by way of
//! the whole report for which it stands (`widened`). A report of counts, `feast 3`, has the two
//! numbers of a journal without its lines, and is not read.
//!
//! Of reports in a row, the first one is told from those behind it by its counts (`first_report`).
#![tactic(auto)]

mod abreast;
mod cursors;
mod detail;
mod first;
mod fitting;
mod forms;
mod journal_fault;
mod law;
mod left;
mod line;
mod page;
mod part;
mod placing;
mod reader;
mod reading;
mod short;
mod short_forms;
mod shown;
mod streamed;
mod table;
mod widening;
mod write_fault;
mod writer;

pub use first::{FirstReport, first_report};
pub use journal_fault::{JournalFault, LineFault};
pub use law::{cuts, one_report, reads_again, reports, reports_in_a_row, short_reports};
pub use reader::{ReadJournal, read};
pub use short::{write_counts, write_short};
pub use widening::widened;
pub use write_fault::WriteFault;
pub use writer::{write_grid, write_report};
