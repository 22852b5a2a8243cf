//! Laws of the stepped machine, as contracts of calls that do nothing.
ghost use Rattle.stepped_world.specs.Ends.{ComesToItsEnd};
ghost use Rattle.stepped_world.specs.Rows.{AreComputed};

/// After the steps of any list of tiles, and then those of each tile in turn, each tile of the
/// stepped machine is done. It does nothing.
pub fn comes_to_its_end()
    ensures { ComesToItsEnd }
{}

/// What the stepped machine does in some small worlds, computed. It does nothing.
pub fn small_runs()
    ensures { AreComputed }
{}
