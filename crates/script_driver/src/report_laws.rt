//! What the answers of a report say of the run that it tells of: laws over every complete run of a document.

ghost use Rattle.core_runs.specs.Machine.{OfAll};
ghost use Rattle.script_driver.specs.report_laws.Fuel.{SpentCallsRanOut};
ghost use Rattle.script_driver.specs.report_laws.Lines.{ReportsAreTrue};
ghost use Rattle.script_driver.specs.report_laws.EpochLines.{EpochReportsAreTrue};
ghost use Rattle.script_driver.specs.report_laws.UseLines.{UseLinesName};

use bare_targets::laws::bare_texts_are_runnable;
use barrier_compiler::laws::{second_scheme_is_barred, second_scheme_is_within};
use core_runs::laws::restarts_are_counted;
use epoch_runs::laws::runs_follow_source;
use legal_histories::laws::{queue_runs_are_legal, set_runs_are_legal};
use queue_source::laws::queue_is_proper;
use set_source::laws::set_is_proper;

/// At the end of a complete run of scripts a call still runs exactly if all the steps that it may make were made for it and
/// it has no reply.
pub fn spent_calls_ran_out()
    ensures { OfAll SpentCallsRanOut }
{}

/// The text of a document with a `use` line is the one that the words of this line name.
pub fn use_lines_name()
    ensures { UseLinesName }
{}

/// A report of a complete run of a document says `phases`, `full`, `spent` and `unreached` exactly if the steps of the run
/// give cause to. If the document's text is proper, the run is one of the text on memory that is never recycled, by all
/// callers at once, which begins the calls of the scripts in order, and each line says what that one answers; if a `use`
/// line names the text, that is so with nothing assumed, and the calls that the lines show can be put in one order, each caller's in
/// its own, in which a set, or a queue, that is empty at first gives each printed answer. Of a shipped text no line is `full` if the
/// slots are at least the initial nodes and the calls of `insert` or `enqueue` of all scripts together.
pub fn reports_are_true()
    ensures { ReportsAreTrue }
{
    second_scheme_is_barred();
    second_scheme_is_within();
    set_is_proper();
    queue_is_proper();
    set_runs_are_legal();
    queue_runs_are_legal();
}

/// A report of a complete run of a document under epochs says `phases`, `full`, `spent` and `unreached` exactly if the steps of the run
/// give cause to, and each caller has counted as many restarts as claims of its own that had made a sweep ended with a slot. If the
/// document's text is proper, the run is one of the text on memory that is never recycled, by all callers at once, which begins the calls of
/// the scripts in order, the base of each load is null or resident, and each line says what that run answers; if a `use` line names the
/// text, that is so with nothing assumed, and the calls that the lines show have a legal order, as for `run`. Of a shipped text no line is
/// `full` if the slots are enough, as for `run`.
pub fn epoch_reports_are_true()
    ensures { EpochReportsAreTrue }
{
    bare_texts_are_runnable();
    restarts_are_counted();
    runs_follow_source();
    set_is_proper();
    queue_is_proper();
    set_runs_are_legal();
    queue_runs_are_legal();
}
