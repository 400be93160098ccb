//! A pool with one caller: when a claim finds it full.

ghost use Rattle.std.specs.Prelude.{◌≡◌};
ghost use Rattle.caller_parts.specs.Settings.{Fits};
ghost use Rattle.caller_parts.specs.declared.setting.Reclamation.TheVariants.{Optimistic};
ghost use Rattle.run_laws.specs.lone_claims.Lone.{LoneClaimsAreFull};

use barrier_check::Barred;
use caller_steps::Setting;

/// For a proper text and one caller, under optimistic access: a claim that comes to its end, and whose sweeps don't find the last phase,
/// ends with Full exactly if each slot of its kind held a name that isn't retired at its begin, that is, if the status of each was used.
pub fn lone_claims_are_full(barred: &Barred, setting: &Setting)
    requires fits { Fits barred.now.target setting.now }
    requires optimistic { setting.now.reclamation ≡ Optimistic }
    ensures { LoneClaimsAreFull barred.now.target barred.now.source setting.now }
{
    barred.kept();
    setting.kept();
}
