//! Loads from recycled slots: no value that one reads passes its check (Cohen and Petrank, SPAA 2015).

ghost use Rattle.std.specs.Prelude.{◌≡◌};
ghost use Rattle.caller_parts.specs.Settings.{Fits};
ghost use Rattle.caller_parts.specs.declared.setting.Reclamation.TheVariants.{Optimistic};
ghost use Rattle.run_laws.specs.stale_laws.Stale.{NoStalePass};

use barrier_check::Barred;
use caller_steps::Setting;

/// For a proper text, under optimistic access: once a caller stands before a load whose base isn't null and isn't resident, its warning
/// word differs from its `seen` until a method run of it begins, whatever all callers do. So each check that it comes to in that run fails,
/// and the method begins again. A base register holds the slot of its name.
pub fn no_stale_pass(barred: &Barred, setting: &Setting)
    requires fits { Fits barred.now.target setting.now }
    requires optimistic { setting.now.reclamation ≡ Optimistic }
    ensures { NoStalePass barred.now.target barred.now.source setting.now }
{
    barred.kept();
    setting.kept();
}
