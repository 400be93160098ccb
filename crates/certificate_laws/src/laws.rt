//! Certificates of runs are accepted.

ghost use Rattle.std.specs.Prelude.{◌≡◌, ◌≤◌};
ghost use Rattle.norm_lang.specs.Shipped.{set_text, queue_text};
ghost use Rattle.caller_parts.specs.Settings.{Fits};
ghost use Rattle.caller_parts.specs.declared.setting.Reclamation.TheVariants.{Optimistic};
ghost use Rattle.certificate_laws.specs.Certified.{AcceptsRuns, RunsAreAccepted};

use barrier_check::Barred;
use caller_steps::Setting;

/// For a proper text, under optimistic access: the events that a complete run of scripts gives to the source machine, in their order, with
/// the replies in which it ends, are accepted.
pub fn images_are_accepted(barred: &Barred, setting: &Setting)
    requires fits { Fits barred.now.target setting.now }
    requires optimistic { setting.now.reclamation ≡ Optimistic }
    ensures { RunsAreAccepted barred.now.target barred.now.source setting.now }
{
    barred.kept();
    setting.kept();
}

/// So it is of each compiled set, whose text is proper.
pub fn set_images_are_accepted(buckets: u32, barred: &Barred, setting: &Setting)
    requires some { 1 ≤ buckets }
    requires text { barred.now.source ≡ set_text buckets }
    requires fits { Fits barred.now.target setting.now }
    requires optimistic { setting.now.reclamation ≡ Optimistic }
    ensures { AcceptsRuns barred.now.target barred.now.source setting.now }
{
    images_are_accepted(barred, setting);
    set_source::laws::set_is_proper();
}

/// And of each compiled queue.
pub fn queue_images_are_accepted(barred: &Barred, setting: &Setting)
    requires text { barred.now.source ≡ queue_text }
    requires fits { Fits barred.now.target setting.now }
    requires optimistic { setting.now.reclamation ≡ Optimistic }
    ensures { AcceptsRuns barred.now.target barred.now.source setting.now }
{
    images_are_accepted(barred, setting);
    queue_source::laws::queue_is_proper();
}
