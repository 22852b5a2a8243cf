//! How the legs so far are judged.

use cell_grid::Grid;
use report_judge::Judgement;

/// The judgement on the legs so far.
#[derive(Drop)]
pub(crate) enum Standing {
    /// Yes, and the grid that they leave.
    Yes(Grid),
    /// The leg of this number is the first whose judgement is another.
    No(u32, Judgement),
}
