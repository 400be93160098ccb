//! Laws of every complete run of a text as it is, under epochs.

ghost use Rattle.core_runs.specs.Machine.{OfAll};
ghost use Rattle.epoch_runs.specs.Begins.{CallsBegin, ScriptsBegin};
ghost use Rattle.epoch_runs.specs.Source.{EpochRunsFollowSource};

/// In the image of a run under epochs the calls that a caller begins are those that got a reply, and the one that runs if its announcement
/// has been stored, in the order in which they were taken.
pub fn calls_begin()
    ensures { OfAll CallsBegin }
{}

/// In the image of a complete run of scripts under epochs each caller begins the calls of its script, in order: all of them, or those that
/// got a reply and, if the fuel lets it begin, the one that is spent.
pub fn scripts_begin()
    ensures { OfAll ScriptsBegin }
{}

/// For a proper text, under epochs: a complete run of scripts is one of the text on memory that is never recycled, by all callers at once,
/// however their steps interleave. It begins the calls of the scripts in order, and the base of each load is null or resident.
pub fn runs_follow_source()
    ensures { EpochRunsFollowSource }
{}
