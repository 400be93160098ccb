//! Laws over the bytes that one command writes and another is given.

ghost use Rattle.command_laws.specs.RoundTrips.{MadeIsAccepted, SpelledIsReplayedAlike, UpgradedIsReplayedAlike, WorkloadsAreStood};

use certificates::laws::certificates_are_read;
use document_spelling::laws::spellings_are_read;
use queue_source::laws::queue_is_proper;
use script_driver::laws::{alike_documents_are_replayed_alike, keys_are_own};
use set_source::laws::set_is_proper;
use text_laws::laws::shipped_are_within;

/// What `judge make` writes of a document is a certificate that `judge check` accepts, if the document's text is proper or a `use` line names
/// it, and if what was written is short enough to be read.
pub fn made_is_accepted()
    ensures { MadeIsAccepted }
{
    certificates_are_read();
    alike_documents_are_replayed_alike();
    set_is_proper();
    queue_is_proper();
}

/// The canonical spelling of a document is read as a document that is replayed alike: of each for which bytes stand, but for the lines of its
/// calls. `upgrade` writes such a spelling.
pub fn upgraded_is_replayed_alike()
    ensures spelled { SpelledIsReplayedAlike }
    ensures upgraded { UpgradedIsReplayedAlike }
{
    spellings_are_read();
    alike_documents_are_replayed_alike();
}

/// The documents of a workload are such documents.
pub fn workloads_are_stood()
    ensures { WorkloadsAreStood }
{
    shipped_are_within();
    keys_are_own();
}
