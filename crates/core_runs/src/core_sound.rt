//! That no access of the core ever leaves the row: laws over every list of events.

ghost use Rattle.core_runs.specs.Views.{IsShaped};
ghost use Rattle.core_runs.specs.caller_laws.Laws.{ForRuns};
ghost use Rattle.core_runs.specs.core_sound.Sound.{Always, IsSound, StaysInRow, StartSuits};
ghost use Rattle.core_runs.specs.Swept.{ClaimsFollowSetting};

/// Of a target that callers may run and a setting that fits it, in every state to which a list of enabled events leads: each caller's
/// entry belongs, each word is lawful, and nothing leads out of the row; and each claim goes by the setting's scheme.
pub fn states_are_sound()
    ensures sound { Always IsSound }
    ensures stays { Always StaysInRow }
    ensures shaped { Always IsShaped }
    ensures claims { Always ClaimsFollowSetting }
{}

/// Of the same: the words at the start are those of the target's nodes and roots.
pub fn start_suits()
    ensures { ForRuns StartSuits }
{}
