//! Laws over the documents of a workload, and over documents that differ only in the lines of their calls.

ghost use Rattle.script_driver.specs.AlikeLaws.{AlikeDocumentsAreReplayedAlike};
ghost use Rattle.script_driver.specs.Laws.{PartsCanBeRun, PartsAreWithinLimits, KeysAreOwn};

use set_source::laws::set_is_normal;
use text_laws::laws::shipped_are_within;

/// Each document of a workload can be run: the rules accept its text, and its shape has no fault.
pub fn parts_can_be_run()
    ensures { PartsCanBeRun }
{
    set_is_normal();
}

/// Each document of a workload is within the limits of documents.
pub fn parts_are_within_limits()
    ensures { PartsAreWithinLimits }
{
    shipped_are_within();
}

/// The numbers of a caller's sequence, and that its keys are its own: no other caller has one of them.
pub fn keys_are_own()
    ensures { KeysAreOwn }
{}

/// Documents that differ only in the lines of their calls are replayed alike: so is a document beside its canonical spelling.
pub fn alike_documents_are_replayed_alike()
    ensures { AlikeDocumentsAreReplayedAlike }
{}
