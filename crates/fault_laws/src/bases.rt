//! The faults of bases.
ghost use Rattle.std.specs.Prelude.{◌≡◌, List, Some};
ghost use Rattle.ulam_heirs.specs.declared.fault.HeirsFault.TheVariants as fault;
ghost use Rattle.ulam_heirs.specs.Lines.{Heir};
ghost use Rattle.ulam_heirs.specs.Faults.{first_fault};
ghost use Rattle.fault_laws.specs.Bases.{HoldsWhere, IsNoQuark, IsOwnBase, DoesNotMatch};
ghost use Rattle.fault_laws.specs.BasesExample.{HasBaseExamples};

/// What holds at the place of the first fault of bases. If a base is refused there, a class names
/// its base there, and what the name means is not a quark. If a class is refused as its own base,
/// it has its name there, and its bases lead back to it. If a member is refused, it has its name
/// there; it is a data member after the word `virtual`, or a function that has the name of a virtual
/// function of a base and another result or other parameters. There is no other fault. An example
/// of each meets its condition. The call does nothing: its contract is the laws.
pub fn base_faults()
    ensures not_quark { HoldsWhere fault.NotQuark IsNoQuark }
    ensures own_base { HoldsWhere fault.OwnBase IsOwnBase }
    ensures bad_override { HoldsWhere fault.BadOverride DoesNotMatch }
    ensures no_other { (heirs : List Heir) → first_fault heirs ≡ Some fault.NoMemory → ⊥ }
    ensures example { HasBaseExamples }
{}
