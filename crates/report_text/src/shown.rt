//! The atoms of a grid.
ghost use Rattle.std.specs.Prelude.{◌≡◌, ◌≤◌, length};
ghost use Rattle.feast_base.specs.TypeNames.{name_of};
ghost use Rattle.report_text.specs.Report.{shown_atoms};

use cell_grid::Grid;
use feast_base::Name;

/// How many atoms are not empty.
#[tactic(auto, unfolding(crate::specs::Report::shown_from))]
pub(crate) fn count(grid: &Grid) -> u64
    ensures { result ≡ length (shown_atoms grid.now) }
{
    let mut count = 0u64;
    for atom in grid.atoms() {
        if atom.kind() != 0 {
            count += 1;
        }
    }
    count
}

/// The name of a type.
pub(crate) fn name_of(names: &[Name], kind: u16) -> &[u8]
    requires { (1 ≤ kind) × (kind ≤ length names.now) }
    ensures { result.now ≡ name_of names.now kind }
{
    names[kind as usize - 1].bytes()
}
