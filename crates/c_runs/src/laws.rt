//! Runs of callers whose steps are matched by the core's.

ghost use Rattle.std.specs.Prelude.{◌≡◌, ◌≤◌, ℕ, List, []};
ghost use Rattle.norm_lang.specs.Shipped.{set_text, queue_text};
ghost use Rattle.caller_parts.specs.Settings.{Fits};
ghost use Rattle.caller_parts.specs.declared.setting.Reclamation.TheVariants.{Optimistic};
ghost use Rattle.set_laws.specs.Sets.{set_step, set_rules};
ghost use Rattle.queue_laws.specs.Queues.{queue_step, queue_rules};
ghost use Rattle.c_runs.specs.Promise.{PromiseOf, LinearizableOf};

use barrier_check::Barred;
use caller_steps::Setting;

/// Of callers of any make (`C`) whose steps are matched by those of the core's: whatever calls they make and however their steps interleave, each
/// run of theirs is one of the core, with the same words, calls and replies. Nothing undefined happens, and each access is in the row. If the text is
/// proper for the callers, the run is one of the text on memory that is never recycled. What stands beside a run goes on as the run does.
pub fn runs_are_matched<C>(barred: &Barred, setting: &Setting)
    requires fits { Fits barred.now.target setting.now }
    requires optimistic { setting.now.reclamation ≡ Optimistic }
    ensures { PromiseOf C barred.now.target barred.now.source setting.now }
{
    barred.kept();
    setting.kept();
    core_runs::core_sound::states_are_sound();
    core_runs::laws::events_are_seen();
    core_runs::laws::start_is_seen();
    oa_simulation::laws::refines(barred, setting);
    run_laws::guarded_claims::no_guarded_claim(barred, setting);
    run_laws::stale_laws::no_stale_pass(barred, setting);
}

/// The same of a compiled set, whose text is proper. It is linearizable (Herlihy and Wing, TOPLAS 1990): each call that returned a number has one
/// deed, between its begin and its end, and the deeds in their order are those of a set.
pub fn sets_are_linearizable<C>(buckets: u32, barred: &Barred, setting: &Setting)
    requires some { 1 ≤ buckets }
    requires text { barred.now.source ≡ set_text buckets }
    requires fits { Fits barred.now.target setting.now }
    requires optimistic { setting.now.reclamation ≡ Optimistic }
    ensures { LinearizableOf C (List ℕ) set_step [] set_rules barred.now.target barred.now.source setting.now }
{
    runs_are_matched::<C>(barred, setting);
    core_histories::laws::set_answers(buckets, barred, setting);
    set_source::laws::set_is_proper();
}

/// The same of a compiled queue. A call that found it empty has a deed, too.
pub fn queues_are_linearizable<C>(barred: &Barred, setting: &Setting)
    requires text { barred.now.source ≡ queue_text }
    requires fits { Fits barred.now.target setting.now }
    requires optimistic { setting.now.reclamation ≡ Optimistic }
    ensures { LinearizableOf C (List ℕ) queue_step [] queue_rules barred.now.target barred.now.source setting.now }
{
    runs_are_matched::<C>(barred, setting);
    core_histories::laws::queue_answers(barred, setting);
    queue_source::laws::queue_is_proper();
}
