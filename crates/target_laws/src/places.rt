//! Erasing by places, and a target's paths in its text.

ghost use Rattle.target_laws.specs.Places.{TargetsEraseByPlaces, SourcesAreInside, PathsAreInText, PathsLeadInside, TargetsStayInside, CyclesAreInText, StatesAreSame, FreshMayBeInText, SurelyFreshInTarget};

/// If a target erases to a text, a plain instruction stands in the text at its source place, with its jump at a source
/// place, and a check or a guard leaves the source place as it is.
pub fn targets_erase_by_places()
    ensures places { TargetsEraseByPlaces }
    ensures inside { SourcesAreInside }
{}

/// With checks and guards left out, a path of a target is one of the text, and a cycle is a cycle.
pub fn paths_are_in_text()
    ensures paths { PathsAreInText }
    ensures inside { PathsLeadInside }
    ensures stays { TargetsStayInside }
    ensures cycles { CyclesAreInText }
{}

/// What becomes of a state along a target's path, if checks and guards leave it as it is, becomes of it along the text's.
pub fn states_are_same<S>()
    ensures { StatesAreSame S }
{}

/// So fresh registers of a target follow from the text's.
pub fn fresh_registers_are_in_text()
    ensures may { FreshMayBeInText }
    ensures surely { SurelyFreshInTarget }
{}
