//! No claim takes a slot that a validated guard names.

ghost use Rattle.std.specs.Prelude.{◌≡◌};
ghost use Rattle.caller_parts.specs.Settings.{Fits};
ghost use Rattle.caller_parts.specs.declared.setting.Reclamation.TheVariants.{Optimistic};
ghost use Rattle.run_laws.specs.guarded_claims.Guarded.{GuardsAreSpared};

use barrier_check::Barred;
use caller_steps::Setting;

/// For a proper text, under optimistic access: whatever the callers do and however their steps interleave, in no state does a validated
/// guard name a slot whose status is ready. Each slot of a kind's chain has that kind and is ready, and stands in it once, so no claim's
/// exchange takes one from the chain of its kind that a validated guard names.
pub fn no_guarded_claim(barred: &Barred, setting: &Setting)
    requires fits { Fits barred.now.target setting.now }
    requires optimistic { setting.now.reclamation ≡ Optimistic }
    ensures { GuardsAreSpared barred.now.target barred.now.source setting.now }
{
    barred.kept();
    setting.kept();
}
