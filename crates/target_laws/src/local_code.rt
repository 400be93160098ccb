//! Where local code of a target settles.

ghost use Rattle.target_laws.specs.LocalCode.{TargetCodeSettles, TargetSettlesOnce, TargetSettlesInside, TargetPathsLeadOn};

/// Local code of a target that erases to a text in normal form settles within as many steps as its method has instructions, at
/// one spot alone, and at an instruction of the method where it may stop; if a path leads to its start, a path leads there.
pub fn target_code_settles()
    ensures settles { TargetCodeSettles }
    ensures once { TargetSettlesOnce }
    ensures inside { TargetSettlesInside }
    ensures further { TargetPathsLeadOn }
{}
