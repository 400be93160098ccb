//! Laws over every call of `operate` and `resume`.

ghost use Rattle.word_runner.specs.table_rule.Seen.{Fixed};
ghost use Rattle.outcome_laws.specs.Outcomes.{OutcomesAreCaused};

/// Of each arena: `operate` and `resume` answer `PhasesOver` exactly if a sweep loaded the last phase by a step of that very
/// call, and `Full` exactly if a claim that had made two sweeps found no slot in its third look, which was the call's last step.
pub fn outcomes_are_caused()
    ensures { (key : Fixed) → OutcomesAreCaused key }
{}
