//! Laws of every core run of a compiled set or queue.

ghost use Rattle.std.specs.Prelude.{◌≡◌, ◌≤◌, ℕ, List, []};
ghost use Rattle.norm_lang.specs.Shipped.{set_text, queue_text};
ghost use Rattle.caller_parts.specs.Settings.{Fits};
ghost use Rattle.caller_parts.specs.declared.setting.Reclamation.TheVariants.{Optimistic};
ghost use Rattle.set_laws.specs.Sets.{set_step, set_rules};
ghost use Rattle.queue_laws.specs.Queues.{queue_step, queue_rules};
ghost use Rattle.core_histories.specs.Cores.{CoreAnswers};

use barrier_check::Barred;
use caller_steps::Setting;

/// Whatever the callers of a compiled set do under optimistic access and however their steps interleave: each caller's replies, and perhaps
/// one that its running call will give, are those of one history of a set, each call once and each caller's in their order; a call that
/// runs has at most one deed, and one that gave up has none.
pub fn set_answers(buckets: u32, barred: &Barred, setting: &Setting)
    requires some { 1 ≤ buckets }
    requires text { barred.now.source ≡ set_text buckets }
    requires fits { Fits barred.now.target setting.now }
    requires optimistic { setting.now.reclamation ≡ Optimistic }
    ensures { CoreAnswers (List ℕ) set_step [] set_rules barred.now.target barred.now.source setting.now }
{
    oa_simulation::laws::refines(barred, setting);
    set_source::laws::set_is_proper();
    set_laws::laws::source_sets_answer();
}

/// The same of a compiled queue.
pub fn queue_answers(barred: &Barred, setting: &Setting)
    requires text { barred.now.source ≡ queue_text }
    requires fits { Fits barred.now.target setting.now }
    requires optimistic { setting.now.reclamation ≡ Optimistic }
    ensures { CoreAnswers (List ℕ) queue_step [] queue_rules barred.now.target barred.now.source setting.now }
{
    oa_simulation::laws::refines(barred, setting);
    queue_source::laws::queue_is_proper();
    queue_laws::laws::source_queues_answer();
}
