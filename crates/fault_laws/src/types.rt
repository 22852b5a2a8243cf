//! The faults of types.
ghost use Rattle.type_rules.specs.Faults as fault;
ghost use Rattle.fault_laws.specs.Types.{BreaksWhere, IsWrongType, IsMixed, IsUnassignable, IsMiscounted, IsNoElement, IsOutside, LacksReturn};
ghost use Rattle.fault_laws.specs.TypesExample.{HasTypeExamples};

/// What holds at the place of the first fault of types: a part stands in the program that breaks the
/// rule of the code there. A wrong type is one that may not stand there, a condition that is no truth
/// value, operands that an operator does not take, a path or call without what is asked of it, or a
/// number that is too large. Signs are mixed by an operator for numbers between one with a sign and
/// one without. Not assignable is a left side that may be none, or a value, result or argument of
/// another type than its target takes. A count is wrong if the function takes more or fewer
/// arguments. A bad `as` is a type that is no element, or a name that is no local of type `Atom`.
/// Outside is what has no loop around. A return is missing if no statement of a function with a result
/// stops before its end. An example has each of these faults first. The call does nothing: its
/// contract is the laws.
pub fn type_faults()
    ensures wrong_type { BreaksWhere fault.wrong_type IsWrongType }
    ensures mixed_signs { BreaksWhere fault.mixed_signs IsMixed }
    ensures not_assignable { BreaksWhere fault.not_assignable IsUnassignable }
    ensures wrong_count { BreaksWhere fault.wrong_count IsMiscounted }
    ensures bad_as { BreaksWhere fault.bad_as IsNoElement }
    ensures break_outside { BreaksWhere fault.break_outside IsOutside }
    ensures missing_return { BreaksWhere fault.missing_return LacksReturn }
    ensures example { HasTypeExamples }
{}
